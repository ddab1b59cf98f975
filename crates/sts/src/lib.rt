// The hosts that are spoken to over S alone, in lent memory. Written by tools/tables.py.
#![tactic(auto)]

ghost use Rattle.std.specs.Prelude.{◌≡◌, ℕ};
ghost use Rattle.std.proofs.Common.{refl, rules};
ghost use Rattle.sorted.specs.Table.{at, is_some};
ghost use Rattle.memory.specs.Rows.{table};
ghost use Rattle.tables.specs.Tables.{sts, key_of, cmp};
ghost use Rattle.layouts.specs.Tables.{sts_in};
ghost use Rattle.layouts.specs.Rows.{strict_host_of};

use memory::Memory;
use rows::Table;
use std::cmp::Ordering;
use types::Host;
use types::rows::StrictHost;

// How many rows there is room for.
pub const STS: usize = 32;

pub struct Sts;

impl Table for Sts {
    type Row = StrictHost;

    type Head = StrictHost;

    type Key = Host;

    const COUNT: usize = 9704;

    const WIDTH: usize = 1;

    const CAPACITY: usize = STS;

    ghost COUNT = { 9704 };

    ghost WIDTH = { 1 };

    ghost CAPACITY = { 32 };

    ghost decode = { strict_host_of };

    ghost head_of = { λ row. row };

    ghost kept = { λ row. row };

    ghost Sort = { ℕ };

    ghost sort = { λ key. key.0 };

    ghost key_of = { key_of sts };

    ghost cmp = { cmp sts };

    fn read(c: &[u32]) -> StrictHost {
        StrictHost {
            host: Host(layouts::half(layouts::number(c, 0))),
        }
    }

    fn glance(c: &[u32]) -> StrictHost {
        Self::read(c)
    }

    fn write(c: &mut [u32], row: StrictHost) {
        let numbers = numbers_of(row);
        if c.len() == numbers.len() {
            c.copy_from_slice(&numbers);
        }
    }

    fn head(row: StrictHost) -> StrictHost {
        row
    }

    fn key(h: StrictHost) -> Host {
        h.host
    }

    fn order(a: Host, b: Host) -> Ordering {
        a.0.cmp(&b.0)
    }

    ghost fits = { Prim.search rules };

    ghost few = { Prim.search rules };

    ghost same_key = { λ row. refl };
}

// A row's numbers.
fn numbers_of(row: StrictHost) -> [u32; 1]
    ensures { strict_host_of result ≡ row }
{
    [layouts::low(row.host.0)]
}

// Whether a host is spoken to over S alone.
pub fn strict(m: &Memory, h: Host) -> bool
    ensures { result ≡ is_some (at (key_of sts) (cmp sts) h.0 (table sts_in m.now)) }
{
    Sts::get(m, h).is_some()
}
