//! A sink that counts, of what is printed to it, the frames that were heard.

ghost use Rattle.std.specs.Prelude.{◌≡◌, Some, [], IfOk, fold, replicate, slice_index_or};
ghost use Rattle.play_script.specs.Tally.{begun, digit_value, in_length, in_rest, in_words, of_kind, of_rule, step, tally_of, tick, two_digits};

use frame_codec::kind::DENIED;
use okws_base::items::Items;
use okws_base::told::{Says, Told};
use okws_outer::stream::{Put, Sink};
use std::alloc::{AllocError, Global};
use std::marker::Model;

/// Where a tally is in the text that is printed: in a line `heard SERVICE K HEX` or another.
#[derive(Clone, Copy)]
pub enum Place {
    /// A line begins.
    Start,
    /// In the words before the digits, of which so many have ended.
    Words(u8),
    /// Behind so many of the eight digits of the frame's length.
    Length(u8),
    /// Before the digits of the frame's kind.
    Kind,
    /// Behind the first of them.
    KindHigh(u8),
    /// Before the digits of the rule of a Denied.
    Rule,
    /// Behind the first of them.
    RuleHigh(u8),
    /// What is left of the line doesn't count.
    Rest,
}

/// Counts that stay at the greatest number of 64 bits.
#[derive(Drop)]
struct Counts {
    counts: Vec<u64>,
}

impl Model for Counts {
    ghost use Rattle.std.specs.Prelude.{List, ℕ};

    ghost Value = { List ℕ };

    ghost view = { λ a. a.counts.items };
}

impl Counts {
    /// So many counts of 0.
    fn new(alloc: Global) -> Result<Counts, AllocError>
        ensures { IfOk result (λ c. c ≡ replicate 256 0) }
    {
        Ok(Counts {
            counts: vec![in alloc; 0; 256]?,
        })
    }

    /// Counts one more at an index; at one that isn't there nothing.
    fn tick(&mut self, index: usize)
        ensures { self.new ≡ tick self.old index }
    {
        if index < self.counts.len() {
            self.counts[index] = self.counts[index].saturating_add(1);
        }
    }

    /// The count at an index.
    fn get(&self, index: usize) -> u64
        ensures { result ≡ slice_index_or self.now index 0 }
    {
        if index < self.counts.len() {
            self.counts[index]
        } else {
            0
        }
    }
}

/// Bytes that are put.
#[derive(Clone, Copy)]
struct Piece<'a> {
    bytes: &'a [u8],
}

impl<'a> Says for Piece<'a> {
    type Item = Items<u8>;

    ghost item = { λ p. p.bytes.now };
}

/// The value of a digit of base 16, in lower case.
fn digit_value(byte: u8) -> usize
    ensures { result ≡ digit_value byte }
{
    if byte < b'a' {
        usize::from(byte.saturating_sub(b'0'))
    } else {
        usize::from(byte - 87)
    }
}

/// The number that two digits write.
fn two_digits(high: u8, low: u8) -> usize
    ensures { result ≡ two_digits high low }
{
    digit_value(high) * 16 + digit_value(low)
}

/// The place behind the first byte of a line.
fn begun(byte: u8) -> Place
    ensures { result ≡ begun byte }
{
    match byte {
        b'h' => Place::Words(0),
        b'\n' => Place::Start,
        _ => Place::Rest,
    }
}

/// The place behind a byte in the words before the digits, of which n have ended.
fn in_words(ended: u8, byte: u8) -> Place
    ensures { result ≡ in_words ended byte }
{
    if byte != b' ' {
        Place::Words(ended)
    } else if ended < 2 {
        Place::Words(ended + 1)
    } else {
        Place::Length(0)
    }
}

/// The place behind a byte of the frame's length, before which n of its digits stand.
fn in_length(digits: u8) -> Place
    ensures { result ≡ in_length digits }
{
    if digits < 7 {
        Place::Length(digits + 1)
    } else {
        Place::Kind
    }
}

/// The place behind a byte that doesn't count.
fn in_rest(byte: u8) -> Place
    ensures { result ≡ in_rest byte }
{
    if byte == b'\n' {
        Place::Start
    } else {
        Place::Rest
    }
}

/// What was counted, and where the text is.
#[derive(Drop)]
struct Counting {
    kinds: Counts,
    rules: Counts,
    place: Place,
}

impl Model for Counting {
    ghost use Rattle.play_script.specs.Tally.{Tallied};

    ghost Value = { Tallied };

    ghost view = { λ a. record { kinds = a.kinds; rules = a.rules; place = a.place } };
}

impl Counting {
    /// A frame of this kind.
    fn count_kind(&mut self, kind: usize)
        ensures { self.new ≡ of_kind self.old kind }
    {
        if kind == usize::from(DENIED) {
            self.place = Place::Rule;
        } else {
            self.kinds.tick(kind);
            self.place = Place::Rest;
        }
    }

    /// A Denied frame of this rule.
    fn count_rule(&mut self, rule: usize)
        ensures { self.new ≡ of_rule self.old rule }
    {
        self.rules.tick(rule);
        self.place = Place::Rest;
    }

    /// A byte more.
    fn step(&mut self, byte: u8)
        ensures { self.new ≡ step self.old byte }
    {
        match self.place {
            Place::Start => self.place = begun(byte),
            Place::Words(ended) => self.place = in_words(ended, byte),
            Place::Length(digits) => self.place = in_length(digits),
            Place::Kind => self.place = Place::KindHigh(byte),
            Place::KindHigh(high) => self.count_kind(two_digits(high, byte)),
            Place::Rule => self.place = Place::RuleHigh(byte),
            Place::RuleHigh(high) => self.count_rule(two_digits(high, byte)),
            Place::Rest => self.place = in_rest(byte),
        }
    }

    /// More of the text.
    #[tactic(auto, using(std::proofs::lemmas::List::Sums::fold_more))]
    fn take(&mut self, bytes: &[u8])
        ensures { self.new ≡ fold step self.old bytes.now }
    {
        for byte in bytes {
            self.step(*byte);
        }
    }
}

/// Counts the frames of each kind, and the Denied frames of each rule, by the lines that tell of them.
/// What is printed to it takes no memory, and contracts alone see it.
pub struct Tally {
    counting: Counting,
    given: Told<Items<u8>>,
}

impl Drop for Tally {
    fn drop(self) {
        let Tally { counting, given } = self;
        drop(counting);
        drop(given);
    }
}

impl Model for Tally {
    ghost use Rattle.okws_outer.specs.Wire.{all_put};
    ghost use Rattle.play_script.specs.Tally.{tally_of};
    ghost use Rattle.std.specs.Prelude.{◌≡◌, List, ℕ};

    ghost Value = { List ℕ };

    ghost view = { λ a. all_put a.given.past };

    ghost invariant = { λ a. a.counting ≡ tally_of (all_put a.given.past) };
}

impl Tally {
    /// A tally of nothing.
    pub fn new(alloc: Global) -> Result<Tally, AllocError>
        ensures { IfOk result (λ t. t ≡ []) }
    {
        Ok(Tally {
            counting: Counting {
                kinds: Counts::new(alloc)?,
                rules: Counts::new(alloc)?,
                place: Place::Start,
            },
            given: Told::new(),
        })
    }

    /// How many frames of a kind but Denied were told.
    pub fn kind(&self, kind: u8) -> u64
        ensures { result ≡ slice_index_or (tally_of self.now).kinds kind 0 }
    {
        self.counting.kinds.get(usize::from(kind))
    }

    /// How many Denied frames of a rule were told.
    pub fn rule(&self, rule: u8) -> u64
        ensures { result ≡ slice_index_or (tally_of self.now).rules rule 0 }
    {
        self.counting.rules.get(usize::from(rule))
    }
}

impl Sink for Tally {
    ghost given = { λ t. Some t };

    ghost faults = { λ t. 0 };

    fn put(&mut self, bytes: &[u8]) -> Put {
        self.counting.take(bytes);
        self.given = self.given.and(&Piece { bytes });
        Put::Done
    }
}
