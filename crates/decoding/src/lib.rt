// One record of a loop table, from bytes: its kind, its fields, and the tests on it.
#![tactic(auto)]

ghost use Rattle.std.specs.Prelude.{◌≡◌, ◌+◌, ◌<◌, ◌≤◌, ℕ, IfOk, leb, length, List, ltb};
ghost use Rattle.records.specs.Bytes.{byte, two, four, offset, kind_of, body_length, record_at, record_of};
ghost use Rattle.records.specs.Grounds.{◌if◌else◌, early, edge, fields, ground, number_met, passed, tested};
ghost use Rattle.records.specs.Clear.{span_of};

use records::{Kind, MOST_ARRAYS, Record, Summary, Tested};
use refusals::{Ground, Refusal};

// The largest length of an array, count of elements in all, last index, offset (kept with 255 added) and count of a loop's items and
// statements.
const MOST_LENGTH: u32 = 65536;

const MOST_ELEMENTS: u32 = 262144;

const MOST_LAST: u32 = 131071;

const MOST_OFFSET: u32 = 510;

const MOST_ITEMS: u32 = 32;

const MOST_STATEMENTS: u32 = 4;

fn one_at(s: &[u8], at: usize) -> u32
    requires { at < length s.now }
    ensures { result ≡ byte s.now at }
{
    u32::from(s[at])
}

#[tactic(auto, unfolding(records::specs::Bytes::two))]
fn two_at(s: &[u8], at: usize) -> u16
    requires { at + 1 < length s.now }
    ensures { result ≡ two s.now at }
{
    u16::from_le_bytes([s[at], s[at + 1]])
}

#[tactic(auto, unfolding(records::specs::Bytes::two, records::specs::Bytes::four))]
pub fn four_at(s: &[u8], at: usize) -> u32
    requires { at + 3 < length s.now }
    ensures { result ≡ four s.now at }
{
    u32::from_le_bytes([s[at], s[at + 1], s[at + 2], s[at + 3]])
}

#[tactic(auto, unfolding(records::specs::Bytes::offset))]
fn offset_at(s: &[u8], at: usize) -> u32
    requires { at + 1 < length s.now }
    ensures { result ≡ offset s.now at }
{
    u32::from(two_at(s, at).wrapping_add(255))
}

// The body lengths, by kind: bytes, since the compiler puts them on the stack for each record.
const BODY_LENGTHS: [u8; 8] = [0, 4, 11, 3, 4, 1, 0, 3];

#[tactic(auto, unfolding(records::specs::Bytes::body_length))]
fn body_length(b: u8) -> usize
    ensures { result ≡ body_length b }
{
    BODY_LENGTHS
        .get(usize::from(b))
        .map_or(0, |n| usize::from(*n))
}

// The grounds that need no body: 2, 6 for a body left unfinished, and 4.
#[tactic(auto, unfolding(records::specs::Grounds::early))]
fn early_ground(k: Kind, t: Summary) -> Result<(), Ground>
    ensures { number_met result ≡ early k t }
{
    match k {
        Kind::Unknown => Err(Ground::Kind),
        Kind::Array => array_early(t),
        Kind::Loop => loop_early(t),
        Kind::Read | Kind::Constant | Kind::Operation => item_early(t),
        Kind::End => end_early(t),
        Kind::Statement => statement_early(t),
    }
}

#[tactic(auto, unfolding(records::specs::Grounds::early))]
fn array_early(t: Summary) -> Result<(), Ground>
    ensures { number_met result ≡ early Kind.Array t }
{
    if 0 < t.loops {
        return Err(Ground::Kind);
    }
    if 16 <= t.arrays {
        return Err(Ground::Crowd);
    }
    Ok(())
}

#[tactic(auto, unfolding(records::specs::Grounds::early))]
fn loop_early(t: Summary) -> Result<(), Ground>
    ensures { number_met result ≡ early Kind.Loop t }
{
    if t.waiting != 1 {
        return Err(Ground::Body);
    }
    if 16 <= t.loops {
        return Err(Ground::Crowd);
    }
    Ok(())
}

#[tactic(auto, unfolding(records::specs::Grounds::early))]
fn end_early(t: Summary) -> Result<(), Ground>
    ensures { number_met result ≡ early Kind.End t }
{
    if t.loops == 0 {
        return Err(Ground::Kind);
    }
    if t.waiting != 1 {
        return Err(Ground::Body);
    }
    Ok(())
}

#[tactic(auto, unfolding(records::specs::Grounds::early))]
fn statement_early(t: Summary) -> Result<(), Ground>
    ensures { number_met result ≡ early Kind.Statement t }
{
    end_early(t)?;
    if MOST_STATEMENTS <= t.statements {
        return Err(Ground::Crowd);
    }
    Ok(())
}

#[tactic(auto, unfolding(records::specs::Grounds::early))]
fn item_early(t: Summary) -> Result<(), Ground>
    ensures { number_met result ≡ early Kind.Read t }
{
    if t.loops == 0 {
        return Err(Ground::Kind);
    }
    if MOST_ITEMS <= t.items {
        return Err(Ground::Crowd);
    }
    Ok(())
}

// The record of a kind whose body is the n bytes from b.
#[tactic(auto, unfolding(records::specs::Bytes::record_of))]
fn record_of(k: Kind, s: &[u8], b: usize, n: usize) -> Record
    requires { (b + n ≤ length s.now) × (n ≡ span_of k) }
    ensures { result ≡ record_of k s.now b }
{
    match k {
        Kind::Unknown => Record::Unknown,
        Kind::Array => Record::Array(four_at(s, b)),
        Kind::Loop => Record::Loop {
            first: four_at(s, b),
            last: four_at(s, b + 4),
            array: one_at(s, b + 8),
            offset: offset_at(s, b + 9),
        },
        Kind::Read => Record::Read {
            array: one_at(s, b),
            offset: offset_at(s, b + 1),
        },
        Kind::Constant => Record::Constant(four_at(s, b)),
        Kind::Operation => Record::Operation(one_at(s, b)),
        Kind::End => Record::End,
        Kind::Statement => Record::Statement {
            array: one_at(s, b),
            offset: offset_at(s, b + 1),
        },
    }
}

// 5 and 3: the array that a record names is not there, or its offset is out of range.
fn reference_tests(q: u32, o: u32, t: Summary) -> Result<(), Ground>
    ensures met { number_met result ≡ (5 if leb t.arrays q else 3 if ltb 510 o else 0) }
    ensures known { IfOk result (λ _. (q < t.arrays) × (o ≤ 510)) }
{
    if t.arrays <= q {
        return Err(Ground::Array);
    }
    if MOST_OFFSET < o {
        return Err(Ground::Field);
    }
    Ok(())
}

// 7: some iteration from first to last reaches outside n elements.
#[tactic(auto, unfolding(records::specs::Grounds::edge))]
fn edge_ground(first: u32, last: u32, o: u32, n: u32) -> Result<(), Ground>
    ensures { number_met result ≡ edge first last o n }
{
    let (first, last, o, n) = (
        u64::from(first),
        u64::from(last),
        u64::from(o),
        u64::from(n),
    );
    if first + o < 255 || n + 255 <= last + o {
        return Err(Ground::Edge);
    }
    Ok(())
}

#[tactic(auto, unfolding(records::specs::Grounds::fields))]
fn array_tests(n: u32, t: Summary) -> Result<(), Ground>
    ensures { (ns : List ℕ) → number_met result ≡ fields (Record.Array n) t ns }
{
    if n == 0 || MOST_LENGTH < n {
        return Err(Ground::Field);
    }
    if MOST_ELEMENTS < t.elements.saturating_add(n) {
        return Err(Ground::Crowd);
    }
    Ok(())
}

#[tactic(auto, unfolding(records::specs::Grounds::fields))]
fn loop_tests(
    first: u32,
    last: u32,
    q: u32,
    o: u32,
    t: Summary,
    lens: &[u32; MOST_ARRAYS],
) -> Result<(), Ground>
    requires { t.arrays ≤ 16 }
    ensures { number_met result ≡ fields (Record.Loop first last q o) t lens.now }
{
    if MOST_LAST < last || last < first {
        return Err(Ground::Field);
    }
    reference_tests(q, o, t)?;
    edge_ground(first, last, o, lens[q as usize])
}

#[tactic(auto, unfolding(records::specs::Grounds::fields))]
fn read_tests(q: u32, o: u32, t: Summary, lens: &[u32; MOST_ARRAYS]) -> Result<(), Ground>
    requires { t.arrays ≤ 16 }
    ensures { number_met result ≡ fields (Record.Read q o) t lens.now }
{
    reference_tests(q, o, t)?;
    if 8 <= t.waiting {
        return Err(Ground::Body);
    }
    edge_ground(t.first, t.last, o, lens[q as usize])
}

#[tactic(auto, unfolding(records::specs::Grounds::fields))]
fn constant_tests(t: Summary) -> Result<(), Ground>
    ensures { (n : ℕ) (ns : List ℕ) → number_met result ≡ fields (Record.Constant n) t ns }
{
    if 8 <= t.waiting {
        return Err(Ground::Body);
    }
    Ok(())
}

#[tactic(auto, unfolding(records::specs::Grounds::fields))]
fn operation_tests(o: u32, t: Summary) -> Result<(), Ground>
    ensures { (ns : List ℕ) → number_met result ≡ fields (Record.Operation o) t ns }
{
    if o == 0 || 5 < o {
        return Err(Ground::Field);
    }
    if t.waiting < records::operands_of(o) {
        return Err(Ground::Body);
    }
    Ok(())
}

#[tactic(auto, unfolding(records::specs::Grounds::fields))]
fn statement_tests(q: u32, o: u32, t: Summary, lens: &[u32; MOST_ARRAYS]) -> Result<(), Ground>
    requires { t.arrays ≤ 16 }
    ensures { number_met result ≡ fields (Record.Statement q o) t lens.now }
{
    reference_tests(q, o, t)?;
    edge_ground(t.first, t.last, o, lens[q as usize])
}

// The tests on a record's fields.
#[tactic(auto, unfolding(records::specs::Grounds::fields))]
fn fields_ground(r: Record, t: Summary, lens: &[u32; MOST_ARRAYS]) -> Result<(), Ground>
    requires { t.arrays ≤ 16 }
    ensures { number_met result ≡ fields r t lens.now }
{
    match r {
        Record::Unknown | Record::End => Ok(()),
        Record::Array(n) => array_tests(n, t),
        Record::Loop {
            first,
            last,
            array,
            offset,
        } => { loop_tests(first, last, array, offset, t, lens) }
        Record::Read { array, offset } => read_tests(array, offset, t, lens),
        Record::Constant(_) => constant_tests(t),
        Record::Operation(o) => operation_tests(o, t),
        Record::Statement { array, offset } => statement_tests(array, offset, t, lens),
    }
}

// A record that meets no ground, and the place after it. (One of unknown kind is refused, and never comes here.)
#[tactic(auto, unfolding(records::specs::Grounds::passed))]
fn passing(r: Record, n: usize) -> Tested
    ensures { result ≡ passed r n }
{
    match r {
        Record::End => Tested::Ended(n),
        _ => Tested::Passed(r, n),
    }
}

// The record at a place and the place after it, or the ground that it meets; the arrays' lengths are lent.
#[tactic(auto, unfolding(records::specs::Grounds::ground, records::specs::Bytes::record_at))]
fn record_at(
    s: &[u8],
    at: usize,
    t: Summary,
    lens: &[u32; MOST_ARRAYS],
) -> Result<(Record, usize), Ground>
    requires { t.arrays ≤ 16 }
    ensures met { number_met result ≡ ground s.now at t lens.now }
    ensures found { IfOk result (λ f. (f.0 ≡ record_at s.now at) × (f.1 ≡ at + 1 + body_length (byte s.now at))) }
{
    let Some(b) = s.get(at) else {
        return Err(Ground::Torn);
    };
    let k = Kind::from(*b);
    early_ground(k, t)?;
    let n = body_length(*b);
    if s.len() < at + 1 + n {
        return Err(Ground::Torn);
    }
    let r = record_of(k, s, at + 1, n);
    fields_ground(r, t, lens)?;
    Ok((r, at + 1 + n))
}

// Reads one record and tests it; the arrays' lengths are lent.
#[tactic(auto, using(records::proofs::Ways::ground_some), unfolding(records::specs::Grounds::tested))]
pub fn read_record(s: &[u8], at: usize, t: Summary, lens: &[u32; MOST_ARRAYS]) -> Tested
    requires { t.arrays ≤ 16 }
    ensures { result ≡ tested s.now at t lens.now }
{
    match record_at(s, at, t, lens) {
        Ok((r, n)) => passing(r, n),
        Err(g) => Tested::Refused(g.met(at)),
    }
}
