// Tables in lent bytes: rows of one width, found by how they begin, written behind one another, cleared; single bytes. Rests on `lines`.
// What a reader must believe stands in specs/Rows.antt.
#![tactic(auto)]

ghost use Rattle.std.specs.Prelude.{◌≡◌, ◌+◌, ◌*◌, ◌≤◌, ◌<◌, length, get_or, set};
ghost use Rattle.std.proofs.Math.Seq.{paste};
ghost use Rattle.lines.specs.Line.{zeros};
ghost use Rattle.rows.specs.Rows.{rows_of, begins_with, has_row};

// The byte at a place of a part, 0 past its end, as the readers of fields and frames say it.
pub fn byte(part: &[u8], at: usize) -> u8
    ensures { result ≡ get_or part.now at 0 }
{
    part.get(at).copied().unwrap_or(0)
}

// Whether a row of the key's length is the key. Paths of one policy share how they begin, so it goes from the end back: `==` is slower there.
pub fn is_same(row: &[u8], key: &[u8]) -> bool
    requires { length key.now ≡ length row.now }
    ensures { result ≡ begins_with key.now row.now }
{
    (0..key.len()).rev().all(|i| row[i] == key[i])
}

// Whether one of the first `count` rows of a table begins with the key. (`chunks_exact` asks for a width above 0, and this does not.)
#[tactic(auto, using(crate::proofs::Laws::starts_begins, crate::proofs::Laws::has_row_more, crate::proofs::Laws::has_row_none))]
pub fn has_row(table: &[u8], width: usize, count: usize, key: &[u8]) -> bool
    requires { (count * width ≤ length table.now) × (length key.now ≤ width) }
    ensures { result ≡ has_row key.now (rows_of width count table.now) }
{
    let mut rest = table;
    for _ in 0..count {
        let (row, after) = rest.split_at(width);
        if row.starts_with(key) {
            return true;
        }
        rest = after;
    }
    false
}

// Writes a row over a table's bytes from `at` on: this, `put` and `clear` are std's, with a clause in the words of the specs that writers cite.
pub fn put_row(table: &mut [u8], at: usize, row: &[u8])
    requires { at + length row.now ≤ length table.old }
    ensures { table.new ≡ paste table.old at row.now (length row.now) }
{
    table[at..at + row.len()].copy_from_slice(row);
}

// Writes `v` at `at`, if there is such a place.
pub fn put(part: &mut [u8], at: usize, v: u8)
    ensures { part.new ≡ set part.old at v }
{
    if at < part.len() {
        part[at] = v;
    }
}

// Fills a part with zeros.
#[tactic(auto, unfolding(lines::specs::Line::zeros))]
pub fn clear(part: &mut [u8])
    ensures { part.new ≡ zeros (length part.old) }
{
    part.fill(0);
}
