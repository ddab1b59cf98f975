// Where the numbers of a row lie.
ghost use Rattle.std.specs.Prelude.{◌≡◌, [], ◌+◌, ◌*◌, ◌≤◌, ◌<◌, get_or};
ghost use Rattle.memory.specs.Rows.{rows, Written};
ghost use Rattle.rows.specs.Tables.{laid};

use super::Table;
use memory::Memory;

// Where row i starts.
pub fn place<T: Table>(i: usize) -> usize
    requires { i ≤ T.CAPACITY }
    ensures { result ≡ T.COUNT + 1 + i * T.WIDTH }
{
    T::COUNT + 1 + i * T::WIDTH
}

// The numbers of row i; none behind the last.
pub fn cells<T: Table>(m: &Memory, i: usize) -> &[u32]
    ensures { T.decode result.now ≡ get_or (rows (laid T.COUNT T.WIDTH T.CAPACITY T.decode) m.now) i (T.decode []) }
{
    if i < T::CAPACITY {
        let p = place::<T>(i);
        &m[p..p + T::WIDTH]
    } else {
        &[]
    }
}

// Row i is written, where there is room for it.
pub fn write_at<T: Table>(m: &mut Memory, i: usize, row: T::Row)
    ensures { i < T.CAPACITY → Written (laid T.COUNT T.WIDTH T.CAPACITY T.decode) (T.kept row) i m.old m.new }
{
    if i < T::CAPACITY {
        let p = place::<T>(i);
        T::write(&mut m[p..p + T::WIDTH], row);
    }
}
