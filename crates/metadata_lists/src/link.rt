// Where each mapping's intervals begin, and which mapping is the next of its name.
ghost use Rattle.std.specs.Prelude.{◌≡◌, ℕ, ◌+◌, ◌-◌, ◌*◌, ◌<◌, ◌≤◌, length, get_or};
ghost use Rattle.metadata_rules.specs.Words.{name_at, before};
ghost use Rattle.metadata_lists.specs.Link.{Chained};

use metadata_words::words::{Mappings, count_at, name_at};

// Mappings, where each one's intervals begin, the next of its name, and each name's first.
#[derive(Clone, Copy, Debug)]
pub struct Linked<'a> {
    pub mappings: Mappings<'a>,
    pub starts: &'a [usize],
    pub nexts: &'a [usize],
    pub firsts: &'a [usize],
}

// The place of each mapping's first interval goes to `starts`; answers how many intervals the first `count` mappings have.
pub fn offsets(mappings: &[u32], count: usize, starts: &mut [usize]) -> usize
    requires { (2 * count ≤ length mappings.now) × (count ≤ length starts.old) × (before mappings.now count < 4294967296) }
    ensures { (result ≡ before mappings.now count) × ((t : ℕ) → t < count → get_or starts.new t 0 ≡ before mappings.now t) }
{
    let mut o = 0;
    for t in 0..count {
        starts[t] = o;
        o += count_at(mappings, t);
    }
    o
}

// Each mapping's next of its name goes to `nexts`, each name's first mapping to `firsts`, which holds `count` everywhere.
pub fn link(mappings: &[u32], count: usize, nexts: &mut [usize], firsts: &mut [usize])
    requires { (2 * count ≤ length mappings.now) × (count ≤ length nexts.old) ×
        ((t : ℕ) → t < count → name_at mappings.now t < length firsts.old) × ((n : ℕ) → n < length firsts.old → get_or firsts.old n 0 ≡ count) }
    ensures { Chained mappings.now nexts.new firsts.new count 0 }
{
    for i in (0..count).rev() {
        let n = name_at(mappings, i) as usize;
        nexts[i] = firsts[n];
        firsts[n] = i;
    }
}
