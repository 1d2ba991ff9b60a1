// The text of an entry of the log.
#![tactic(auto, unfolding(crate::specs::Words::behind, crate::specs::Words::divided))]

ghost use Rattle.std.specs.Prelude.{◌≡◌, [], ◌∷◌, ◌++◌, IfOk, OnOk, codes, decimal, map, string_bytes};
ghost use Rattle.ec_wire.specs.Calls.{op_words};
ghost use Rattle.ec_wire.specs.Entries.{body_words, brick_word, client_word, entry_text};
ghost use Rattle.ec_wire.specs.Requests.{reply_words, request_words};
ghost use Rattle.ec_wire.specs.Words.{behind, either, number_or_dash, spaced};

use crate::answers_text::answer_text;
use crate::calls_text::push_op;
use crate::entry::Entry;
use crate::message::{Body, Message};
use crate::op::Op;
use crate::replies_text::push_reply;
use crate::requests_text::push_request;
use crate::words::{either, push_counted, push_number_or_dash, push_numbers, push_word};
use itoa::Buffer;
use std::alloc::{AllocError, Global};

/// A line of a word and numbers, with a blank between two.
pub fn line(alloc: Global, word: &str, numbers: &[u64]) -> Result<String, AllocError>
    ensures { IfOk result (λ text. string_bytes text ≡ spaced (word.now ∷ map decimal numbers.now)) }
{
    let mut text = String::from_str(alloc, word)?;
    push_numbers(&mut text, numbers)?;
    Ok(text)
}

/// A client begins a call.
fn called_text(alloc: Global, call: u32, client: u8, op: &Op) -> Result<String, AllocError>
    ensures { IfOk result (λ text. string_bytes text ≡ spaced (codes "called" ∷ decimal call ∷ decimal client ∷ op_words op.now)) }
{
    let mut text = line(alloc, "called", &[u64::from(call), u64::from(client)])?;
    push_op(&mut text, op)?;
    Ok(text)
}

/// Adds a client.
fn push_client(text: &mut String, client: u8) -> Result<(), AllocError>
    ensures { OnOk result (string_bytes text.new ≡ string_bytes text.old ++ behind 32 (client_word client ∷ [])) }
{
    let mut buffer = Buffer::new();
    push_word(text, "c")?;
    text.push_str(buffer.format(client))
}

/// Adds a brick.
fn push_brick(text: &mut String, brick: u8) -> Result<(), AllocError>
    ensures { OnOk result (string_bytes text.new ≡ string_bytes text.old ++ behind 32 (brick_word brick ∷ [])) }
{
    let mut buffer = Buffer::new();
    push_word(text, "b")?;
    text.push_str(buffer.format(brick))
}

/// Adds who sends, who is to get it, and what.
fn push_body(text: &mut String, client: u8, brick: u8, body: &Body) -> Result<(), AllocError>
    ensures { OnOk result (string_bytes text.new ≡ string_bytes text.old ++ behind 32 (body_words client brick body.now)) }
{
    match body {
        Body::ToBrick(request) => {
            push_client(text, client)?;
            push_brick(text, brick)?;
            push_request(text, request)
        }
        Body::ToClient { re, reply } => {
            push_brick(text, brick)?;
            push_client(text, client)?;
            push_counted(text, "re", *re)?;
            push_reply(text, reply)
        }
    }
}

/// A message is sent.
fn sent_text(alloc: Global, m: &Message) -> Result<String, AllocError>
    ensures { IfOk result (λ text. string_bytes text ≡ spaced (codes "sent" ∷ decimal m.now.no ∷ body_words m.now.client m.now.brick m.now.body)) }
{
    let mut text = line(alloc, "sent", &[m.no])?;
    push_body(&mut text, m.client, m.brick, &m.body)?;
    Ok(text)
}

/// A brick executed a request, and read this version.
fn executed_text(alloc: Global, no: u64, version: Option<u64>) -> Result<String, AllocError>
    ensures { IfOk result (λ text. string_bytes text ≡ spaced (codes "executed" ∷ decimal no ∷ number_or_dash version ∷ [])) }
{
    let mut text = line(alloc, "executed", &[no])?;
    push_number_or_dash(&mut text, version)?;
    Ok(text)
}

/// A brick wrote so many bytes and stopped.
fn torn_text(alloc: Global, no: u64, bytes: u32, version: Option<u64>) -> Result<String, AllocError>
    ensures { IfOk result (λ text. string_bytes text ≡ spaced (codes "torn" ∷ decimal no ∷ decimal bytes ∷ number_or_dash version ∷ [])) }
{
    let mut text = line(alloc, "torn", &[no, u64::from(bytes)])?;
    push_number_or_dash(&mut text, version)?;
    Ok(text)
}

/// The disk of a brick was wiped of so many records.
fn replaced_text(alloc: Global, brick: u8, removed: u64, all: bool) -> Result<String, AllocError>
    ensures { IfOk result (λ text. string_bytes text ≡ spaced (codes "replaced" ∷ decimal brick ∷ decimal removed ∷ either all (codes "all") (codes "part") ∷ [])) }
{
    let mut text = line(alloc, "replaced", &[u64::from(brick), removed])?;
    push_word(&mut text, either(all, "all", "part"))?;
    Ok(text)
}

/// A client stopped waiting for a brick.
fn given_up_text(alloc: Global, client: u8, brick: u8, no: u64) -> Result<String, AllocError>
    ensures { IfOk result (λ text. string_bytes text ≡ spaced (codes "givenup" ∷ decimal client ∷ decimal brick ∷ decimal no ∷ [])) }
{
    line(alloc, "givenup", &[u64::from(client), u64::from(brick), no])
}

/// The line of an entry of the log.
pub fn entry_text(alloc: Global, e: &Entry) -> Result<String, AllocError>
    ensures { IfOk result (λ text. string_bytes text ≡ entry_text e.now) }
{
    match e {
        Entry::Called { call, client, op } => called_text(alloc, *call, *client, op),
        Entry::Sent(m) => sent_text(alloc, m),
        Entry::Executed { no, version, .. } => executed_text(alloc, *no, *version),
        Entry::Heard { no } => line(alloc, "heard", &[*no]),
        Entry::Lost { no } => line(alloc, "lost", &[*no]),
        Entry::GivenUp { client, brick, no } => given_up_text(alloc, *client, *brick, *no),
        Entry::Stopped { brick } => line(alloc, "stopped", &[u64::from(*brick)]),
        Entry::Returned { brick } => line(alloc, "returned", &[u64::from(*brick)]),
        Entry::Cut { client, brick } => {
            line(alloc, "cut", &[u64::from(*client), u64::from(*brick)])
        }
        Entry::Died { client } => line(alloc, "died", &[u64::from(*client)]),
        Entry::Yielded { client } => line(alloc, "yielded", &[u64::from(*client)]),
        Entry::Torn { no, bytes, version } => torn_text(alloc, *no, *bytes, *version),
        Entry::Answered { call, answer } => answer_text(alloc, *call, answer),
        Entry::Replaced {
            brick,
            removed,
            all,
        } => replaced_text(alloc, *brick, *removed, *all),
    }
}
