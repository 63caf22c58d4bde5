//! The suffix rules of a makefile, found by the suffix of what they make.

ghost use Rattle.std.specs.Prelude.{◌≡◌, ◌<◌, ◌==◌, ℕ, List, Some, IfOk, OnOk, length, unwrap_or, if◌then◌else◌};
ghost use Rattle.std.specs.HashMap.{get};
ghost use Rattle.std.specs.List.{list_any};
ghost use Rattle.std.specs.Str.{bytes_eq};
ghost use Rattle.make_graph.specs.Suffixes.{KnowsSuffixes, are_dotted, is_dotted, suffix_key, next_place, rule_place, rule_at, suffix_of};

use cc_names::memory::NoMemory;
use cc_names::texts::Text;
use make_text::rules::SuffixRule;
use std::alloc::Global;
use std::collections::HashMap;
use std::hash::RandomState;

/// The place of the first rule for each key.
type Firsts = HashMap<Text, usize, RandomState>;

/// The suffix rules of a makefile, each found by the suffix of what it makes, and after it the others of that suffix, in order.
#[derive(Drop)]
pub(crate) struct SuffixTable<'a> {
    rules: &'a [SuffixRule],
    /// Whether each rule makes what has a `.`; else all are found by one key.
    by_suffix: bool,
    first: Firsts,
    /// The place of the next rule for the same key, after each rule.
    next: Vec<usize>,
    ghost knows: { KnowsSuffixes rules.now by_suffix first next.items },
}

/// Whether bytes have a `.`.
fn is_dotted(bytes: &[u8]) -> bool
    ensures { result ≡ is_dotted bytes.now }
{
    for byte in bytes {
        if *byte == b'.' {
            return true;
        }
    }
    false
}

/// Whether each rule makes what has a `.`.
fn are_dotted(rules: &[SuffixRule]) -> bool
    ensures { result ≡ are_dotted rules.now }
{
    for rule in rules {
        if !is_dotted(rule.to_suffix()) {
            return false;
        }
    }
    true
}

/// The bytes from the last `.` on; none where there is no `.`.
fn suffix_of(bytes: &[u8]) -> &[u8]
    ensures { result.now ≡ suffix_of bytes.now }
{
    let mut suffix: &[u8] = &[];
    for (place, byte) in bytes.iter().enumerate() {
        if *byte == b'.' {
            suffix = &bytes[place..];
        }
    }
    suffix
}

/// What the rules for bytes are found by.
fn suffix_key(by_suffix: bool, bytes: &[u8]) -> &[u8]
    ensures { result.now ≡ suffix_key by_suffix bytes.now }
{
    if by_suffix { suffix_of(bytes) } else { &[] }
}

/// Puts a rule before the others that are found by its key, and tells the place of the first of those, or this end.
fn put_first(
    alloc: Global,
    first: &mut Firsts,
    key: &[u8],
    place: usize,
    end: usize,
) -> Result<usize, NoMemory>
    ensures next { IfOk result (λ next. next ≡ unwrap_or (get bytes_eq first.old key.now) end) }
    ensures first { OnOk result
        ((other : List ℕ)
        → get bytes_eq first.new other
        ≡ (if bytes_eq key.now other then Some place else get bytes_eq first.old other)) }
{
    let next = first.insert(Text::from_bytes(alloc, key)?, place)?;
    Ok(next.unwrap_or(end))
}

impl<'a> SuffixTable<'a> {
    /// The table of these rules. Takes time linear in what they make, and memory linear in them.
    pub(crate) fn of(
        alloc: Global,
        hashing: RandomState,
        rules: &'a [SuffixRule],
    ) -> Result<SuffixTable<'a>, NoMemory>
        ensures { IfOk result (λ table. table.rules.now ≡ rules.now) }
    {
        let by_suffix = are_dotted(rules);
        let mut first = HashMap::with_hasher(alloc, hashing);
        let mut next = vec![in alloc; 0; rules.len()]?;
        let mut place = rules.len();
        while place > 0 {
            place -= 1;
            let key = suffix_key(by_suffix, rules[place].to_suffix());
            next[place] = put_first(alloc, &mut first, key, place, rules.len())?;
        }
        Ok(SuffixTable {
            rules,
            by_suffix,
            first,
            next,
        })
    }

    /// How many rules there are.
    pub(crate) fn len(&self) -> usize
        ensures { result ≡ length self.now.rules.now }
    {
        self.rules.len()
    }

    /// The rule at a place, in constant time.
    pub(crate) fn rule(&self, place: usize) -> &'a SuffixRule
        requires { place < length self.now.rules.now }
        ensures { result.now ≡ rule_at self.now.rules.now place }
    {
        &self.rules[place]
    }

    /// The place of the first rule that may serve a path; after all where there is none. Takes time linear in the path.
    pub(crate) fn first(&self, alloc: Global, path: &[u8]) -> Result<usize, NoMemory>
        ensures { IfOk result
            (λ place.
            place
            ≡ rule_place self.now.by_suffix (suffix_key self.now.by_suffix path.now)
            self.now.rules.now) }
    {
        let key = Text::from_bytes(alloc, suffix_key(self.by_suffix, path))?;
        Ok(self.first.get(&key).copied().unwrap_or(self.rules.len()))
    }

    /// The place of the next rule that may serve what the one at a place does, in constant time.
    pub(crate) fn next(&self, place: usize) -> usize
        requires { place < length self.now.rules.now }
        ensures { result ≡ next_place self.now.by_suffix self.now.rules.now place }
    {
        self.next[place]
    }
}
