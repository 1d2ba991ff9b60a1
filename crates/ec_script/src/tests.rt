// What is wanted is written out by hand.

mod again;
mod generator;
mod lines;
mod long;
