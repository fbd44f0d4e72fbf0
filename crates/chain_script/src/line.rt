//! Parsing a line.
ghost use Rattle.std.specs.Prelude.{◌≡◌, ℕ, ℤ, List, length, codes, MatchOption, IfSome};
ghost use Rattle.chain_ops.specs.declared.copym.Extent.{Extent};
ghost use Rattle.script_loop.specs.Left.{left};
ghost use Rattle.chain_script.specs.Lines.{Request, IsRequest, IsExtentWords, IsSigned};
ghost use Rattle.chain_script.specs.Inside.Calls.{request_of, word_of, IsSlotCall, ReadsChainForm};

use crate::caller::SLOTS;
use crate::keyword::{Keyword, keyword_of};
use chain_ops::Extent;
use params::{IP_MAX_PACKET, LONGEST_REQUEST};
use script_loop::{bytes, first_word, is_end, number, one, three, two};

/// The index of the last slot.
const LAST_SLOT: u32 = SLOTS as u32 - 1;

/// The greatest offset, length or number in a line.
const MOST: u32 = IP_MAX_PACKET;

/// The request of a line. If the line contains bytes, they are in a separate buffer, and the call has their number.
#[derive(Clone, Copy)]
pub(crate) enum Call {
    User(u32, usize),
    Wire(u32, usize),
    Copy(u32, u32, Extent),
    Prepend(u32, usize),
    PullUp(u32, u32),
    Adjust(u32, i32),
    Split(u32, u32, u32),
    Join(u32, u32),
    WriteOver(u32, u32, usize),
    ReadOut(u32, u32, u32),
    Show(u32),
    Free(u32),
    Usage,
}

/// Parses a number of -65535 to 65535, with a leading `-` if it is below 0.
fn signed(word: &[u8]) -> Option<i32>
    ensures { MatchOption result ((n : ℤ) → IsSigned word.now n → ⊥) (λ n. IsSigned word.now n) }
{
    if let Some(n) = number(word, MOST) {
        return Some(n as i32);
    }
    let (sign, digits) = word.split_first()?;
    if *sign != b'-' {
        return None;
    }
    let n = number(digits, MOST)?;
    if n == 0 {
        return None;
    }
    Some(-(n as i32))
}

/// Parses the part of a chain to copy: `all`, or an offset and a length.
fn extent_of(rest: Option<&[u8]>) -> Option<Extent>
    ensures { MatchOption result ((extent : Extent) → IsExtentWords (left rest.entry) extent → ⊥)
        (λ extent. IsExtentWords (left rest.entry) extent) }
{
    if let Some(word) = one(rest) {
        if word == b"all".as_slice() {
            return Some(Extent::All);
        }
        return None;
    }
    let (off, len) = two(rest)?;
    let off = number(off, MOST)?;
    let len = number(len, MOST)?;
    Some(Extent::Part(off, len))
}

fn user_of(rest: Option<&[u8]>, buffer: &mut [u8]) -> Option<Call>
    requires { length buffer.old ≡ IP_MAX_PACKET }
    ensures { ReadsChainForm (codes "user") (left rest.entry) buffer.new result }
{
    let (slot, word) = two(rest)?;
    let slot = number(slot, LAST_SLOT)?;
    let len = bytes(word, buffer)?;
    Some(Call::User(slot, len))
}

fn wire_of(rest: Option<&[u8]>, buffer: &mut [u8]) -> Option<Call>
    requires { length buffer.old ≡ IP_MAX_PACKET }
    ensures { ReadsChainForm (codes "wire") (left rest.entry) buffer.new result }
{
    let (slot, word) = two(rest)?;
    let slot = number(slot, LAST_SLOT)?;
    let len = bytes(word, buffer)?;
    Some(Call::Wire(slot, len))
}

fn copy_of(rest: Option<&[u8]>) -> Option<Call>
    ensures { (buffer : List ℕ) → ReadsChainForm (codes "copym") (left rest.entry) buffer result }
{
    let (to, rest) = first_word(rest?);
    let (slot, rest) = first_word(rest?);
    let to = number(to, LAST_SLOT)?;
    let slot = number(slot, LAST_SLOT)?;
    let extent = extent_of(rest)?;
    Some(Call::Copy(to, slot, extent))
}

fn prepend_of(rest: Option<&[u8]>, buffer: &mut [u8]) -> Option<Call>
    requires { length buffer.old ≡ IP_MAX_PACKET }
    ensures { ReadsChainForm (codes "prepend") (left rest.entry) buffer.new result }
{
    let (slot, word) = two(rest)?;
    let slot = number(slot, LAST_SLOT)?;
    let len = bytes(word, buffer)?;
    Some(Call::Prepend(slot, len))
}

fn pullup_of(rest: Option<&[u8]>) -> Option<Call>
    ensures { (buffer : List ℕ) → ReadsChainForm (codes "pullup") (left rest.entry) buffer result }
{
    let (slot, n) = two(rest)?;
    let slot = number(slot, LAST_SLOT)?;
    let n = number(n, MOST)?;
    Some(Call::PullUp(slot, n))
}

fn adj_of(rest: Option<&[u8]>) -> Option<Call>
    ensures { (buffer : List ℕ) → ReadsChainForm (codes "adj") (left rest.entry) buffer result }
{
    let (slot, n) = two(rest)?;
    let slot = number(slot, LAST_SLOT)?;
    let n = signed(n)?;
    Some(Call::Adjust(slot, n))
}

fn split_of(rest: Option<&[u8]>) -> Option<Call>
    ensures { (buffer : List ℕ) → ReadsChainForm (codes "split") (left rest.entry) buffer result }
{
    let (to, slot, at) = three(rest)?;
    let to = number(to, LAST_SLOT)?;
    let slot = number(slot, LAST_SLOT)?;
    let at = number(at, MOST)?;
    Some(Call::Split(to, slot, at))
}

fn cat_of(rest: Option<&[u8]>) -> Option<Call>
    ensures { (buffer : List ℕ) → ReadsChainForm (codes "cat") (left rest.entry) buffer result }
{
    let (slot, other) = two(rest)?;
    let slot = number(slot, LAST_SLOT)?;
    let other = number(other, LAST_SLOT)?;
    Some(Call::Join(slot, other))
}

fn copyback_of(rest: Option<&[u8]>, buffer: &mut [u8]) -> Option<Call>
    requires { length buffer.old ≡ IP_MAX_PACKET }
    ensures { ReadsChainForm (codes "copyback") (left rest.entry) buffer.new result }
{
    let (slot, off, word) = three(rest)?;
    let slot = number(slot, LAST_SLOT)?;
    let off = number(off, MOST)?;
    let len = bytes(word, buffer)?;
    Some(Call::WriteOver(slot, off, len))
}

fn copydata_of(rest: Option<&[u8]>) -> Option<Call>
    ensures { (buffer : List ℕ) → ReadsChainForm (codes "copydata") (left rest.entry) buffer result }
{
    let (slot, off, len) = three(rest)?;
    let slot = number(slot, LAST_SLOT)?;
    let off = number(off, MOST)?;
    let len = number(len, MOST)?;
    Some(Call::ReadOut(slot, off, len))
}

fn show_of(rest: Option<&[u8]>) -> Option<Call>
    ensures { (buffer : List ℕ) → ReadsChainForm (codes "show") (left rest.entry) buffer result }
{
    let slot = number(one(rest)?, LAST_SLOT)?;
    Some(Call::Show(slot))
}

fn free_of(rest: Option<&[u8]>) -> Option<Call>
    ensures { (buffer : List ℕ) → ReadsChainForm (codes "free") (left rest.entry) buffer result }
{
    let slot = number(one(rest)?, LAST_SLOT)?;
    Some(Call::Free(slot))
}

fn usage_of(rest: Option<&[u8]>) -> Option<Call>
    ensures { (buffer : List ℕ) → ReadsChainForm (codes "mbstat") (left rest.entry) buffer result }
{
    if is_end(rest) {
        Some(Call::Usage)
    } else {
        None
    }
}

/// Parses the words after a keyword.
fn form_of(word: Keyword, rest: Option<&[u8]>, buffer: &mut [u8]) -> Option<Call>
    requires { length buffer.old ≡ IP_MAX_PACKET }
    ensures { ReadsChainForm (word_of word) (left rest.entry) buffer.new result }
{
    match word {
        Keyword::User => user_of(rest, buffer),
        Keyword::Wire => wire_of(rest, buffer),
        Keyword::CopyM => copy_of(rest),
        Keyword::Prepend => prepend_of(rest, buffer),
        Keyword::PullUp => pullup_of(rest),
        Keyword::Adj => adj_of(rest),
        Keyword::Split => split_of(rest),
        Keyword::Cat => cat_of(rest),
        Keyword::CopyBack => copyback_of(rest, buffer),
        Keyword::CopyData => copydata_of(rest),
        Keyword::Show => show_of(rest),
        Keyword::Free => free_of(rest),
        Keyword::MbStat => usage_of(rest),
    }
}

/// Returns the request of the line, if the line is well-formed.
pub(crate) fn call_of(line: &[u8], buffer: &mut [u8]) -> Option<Call>
    requires { length buffer.old ≡ IP_MAX_PACKET }
    ensures call { MatchOption result ((request : Request) → IsRequest line.now request → ⊥)
        (λ call. IsRequest line.now (request_of call buffer.new)) }
    ensures fits { IfSome result (λ call. IsSlotCall call) }
{
    if line.len() > LONGEST_REQUEST as usize {
        return None;
    }
    let (name, rest) = first_word(line);
    let word = keyword_of(name)?;
    form_of(word, rest, buffer)
}
