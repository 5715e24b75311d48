// The consumers of the change log.
ghost use Rattle.std.specs.Prelude.{◌≡◌, map, length};
ghost use Rattle.reg_facts.specs.Consumers.{consumer_place, acknowledged, AreConsumersOnce};

use crate::{ConsumerRow, Facts};

/// The place of the consumer of a name.
fn place_in(rows: &[ConsumerRow], name: &str) -> Option<u64>
    ensures { result ≡ consumer_place name.now rows.now }
{
    match rows {
        [] => None,
        [row, rest @ ..] => {
            if row.name.as_str() == name {
                Some(row.place)
            } else {
                place_in(rest, name)
            }
        }
    }
}

/// The consumer of a name has read up to a number.
pub fn acknowledge(rows: &mut [ConsumerRow], name: &str, seq: u64)
    ensures { rows.new ≡ map (acknowledged name.now seq) rows.old }
{
    for row in rows.iter_mut() {
        if row.name.as_str() == name {
            row.place = seq;
        }
    }
}

impl Facts {
    /// The place of the consumer of this name: the number of the last entry that it has
    /// acknowledged. None exactly where there is no such consumer. It takes no memory.
    pub fn consumer_place(&self, name: &str) -> Option<u64>
        ensures { result ≡ consumer_place name.now self.now.consumers }
    {
        place_in(&self.tables.consumer_rows, name)
    }
}
