// Two tables side by side (RULES, Requests, No. 1): the list of every stretch in which they disagree, its room judged before a byte is written.
ghost use Rattle.std.specs.Prelude.{◌≡◌, ◌+◌, ◌*◌, ◌≤◌, length, IfOk};
ghost use Rattle.theory.specs.Answer.{no_values, one_value};
ghost use Rattle.leaves.specs.Refusal.{answer_with};
ghost use Rattle.map_compare_rules.specs.Memory.{stretch_width, compare_fits, both_formed, stretches_of, compare_outcome, Compares, lay_stretches};
ghost use Rattle.map_rules.specs.Memory.{width};
ghost use Rattle.map_compare.specs.Compare.{Needed, tables_answer, Holds};

use crate::stretch_bytes::{STRETCH_WIDTH, put_stretch};
use leaves::refusal::Refusal;
use map_compare_walk::stretches::Walk;
use map_compare_walk::tables::Tables;
use map_table::table::{memory_fits, well_formed};

// How many of so many places must be there: as many as there are stretches; where there are two an interval, which always suffice,
// none is counted.
fn needed(tables: Tables<'_>, room: usize) -> usize
    ensures { let t = tables.entry in Needed result room (length (stretches_of t.left.now t.left_used t.right.now t.right_used)) }
{
    if 2 * (tables.left_used + tables.right_used) <= room {
        0
    } else {
        Walk::new(tables).count()
    }
}

// Lays every stretch in the list, and answers how many there are.
fn lay(tables: Tables<'_>, stretches: &mut [u8]) -> usize
    requires { length (stretches_of tables.left.now tables.left_used tables.right.now tables.right_used) * stretch_width ≤ length stretches.old }
    ensures count { let t = tables.entry in result ≡ length (stretches_of t.left.now t.left_used t.right.now t.right_used) }
    ensures list { let t = tables.entry in
        stretches.new ≡ lay_stretches stretches.old 0 (stretches_of t.left.now t.left_used t.right.now t.right_used) }
{
    // Counted by hand: how many there are is the answer, which `enumerate` would not leave behind.
    let mut total = 0;
    for stretch in Walk::new(tables) {
        put_stretch(stretches, total, stretch);
        total += 1;
    }
    total
}

// Whether what is lent is two tables with so many in use, and a list, and no more names are in use than may be; where not, 15.
pub fn compare_fits(
    left: usize,
    n: usize,
    right: usize,
    m: usize,
    names: usize,
    list: usize,
) -> bool
    ensures { result ≡ compare_fits left n right m names list }
{
    memory_fits(left, n, names) && memory_fits(right, m, names) && list % STRETCH_WIDTH == 0
}

// Whether both tables are well-formed.
pub fn both_formed(left: &[u8], n: usize, right: &[u8], m: usize, names: usize) -> bool
    requires { (n * width ≤ length left.now) × (m * width ≤ length right.now) }
    ensures { result ≡ both_formed left.now n right.now m names }
{
    well_formed(left, n, names) && well_formed(right, m, names)
}

// What a comparison is lent: two tables with so many of their intervals in use, and how many names both know.
#[derive(Clone, Copy)]
pub struct Lent<'a> {
    pub left: &'a [u8],
    pub left_used: usize,
    pub right: &'a [u8],
    pub right_used: usize,
    pub names: usize,
}

impl<'a> Lent<'a> {
    // Whether it is two tables, beside a list of so many bytes, and no more names are in use than may be; where not, 15.
    fn fits(self, list: usize) -> bool
        ensures { let t = self.entry in result ≡ compare_fits (length t.left.now) t.left_used (length t.right.now) t.right_used t.names list }
    {
        compare_fits(
            self.left.len(),
            self.left_used,
            self.right.len(),
            self.right_used,
            self.names,
            list,
        )
    }

    // Whether both tables are well-formed.
    fn is_formed(self) -> bool
        requires { (self.left_used * width ≤ length self.left.now) × (self.right_used * width ≤ length self.right.now) }
        ensures { let t = self.entry in result ≡ both_formed t.left.now t.left_used t.right.now t.right_used t.names }
    {
        both_formed(
            self.left,
            self.left_used,
            self.right,
            self.right_used,
            self.names,
        )
    }

    // The tables, beside a list of so many bytes: 15, then 14.
    pub fn check(self, list: usize) -> Result<Tables<'a>, Refusal>
        ensures answer { let t = self.entry in
            answer_with no_values result ≡ tables_answer t.left.now t.left_used t.right.now t.right_used t.names list }
        ensures whole { let t = self.entry in IfOk result (Holds t.left.now t.left_used t.right.now t.right_used) }
    {
        if !self.fits(list) {
            return Err(Refusal::BadMemory);
        }
        if !self.is_formed() {
            return Err(Refusal::IllFormed);
        }
        Ok(Tables {
            left: self.left,
            left_used: self.left_used,
            right: self.right,
            right_used: self.right_used,
        })
    }
}

// Every stretch in which two tables of one name list disagree, sorted, each once, as long as can be: 15, 14, then 2, judged on the
// whole list before a byte of it is written. Answers how many there are.
pub fn compare(lent: Lent<'_>, stretches: &mut [u8]) -> Result<usize, Refusal>
    ensures { let t = lent.entry in
        Compares (compare_outcome t.left.now t.left_used t.right.now t.right_used t.names stretches.old)
        stretches.old (answer_with one_value result) stretches.new }
{
    let tables = lent.check(stretches.len())?;
    let room = stretches.len() / STRETCH_WIDTH;
    if room < needed(tables, room) {
        return Err(Refusal::NoRoom);
    }
    Ok(lay(tables, stretches))
}
