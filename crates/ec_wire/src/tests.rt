// What is wanted is written out by hand.

mod flight;
mod texts;
