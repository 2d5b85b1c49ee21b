//! Tables of words.
ghost use Rattle.std.specs.Prelude.{◌≡◌, map};
ghost use Rattle.cg_script.specs.Tables.{named as named_in};

/// What a table has next to a word.
#[inline(never)]
pub(crate) fn named<T: Copy>(table: &[(&[u8], T)], word: &[u8]) -> Option<T>
    ensures { result ≡ named_in (map (λ row. (row.0.now, row.1)) table.now) word.now }
{
    'rows: for row in table {
        if word == row.0 {
            return Some(row.1);
        }
    }
    None
}
