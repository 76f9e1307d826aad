// The records of a sheet that is known to be good, read without a test.
ghost use Rattle.std.specs.Prelude.{◌≡◌};
ghost use Rattle.loader.specs.laws.FirstRecord.{WholeRecord, first_record};

use number_fields::u16_at;
use records::fields::{Landing, Link, landing_in, link_in};
use records::record::Record;

// The record that the bytes begin with, where they begin with a whole one: nothing but its mark is compared.
pub fn first_record(bytes: &[u8]) -> Record
    requires { WholeRecord bytes.now }
    ensures { result ≡ first_record bytes.now }
{
    let fields = &bytes[2..];
    match u16_at(bytes, 0) {
        limits::MARK_SR => Record::Sender {
            node: u16_at(fields, 0),
        },
        limits::MARK_ST => {
            let Landing { terminal, node } = landing_in(fields);
            Record::Landing { terminal, node }
        }
        limits::MARK_BK => {
            let Link { start, end, weight } = link_in(fields);
            Record::BothWays { start, end, weight }
        }
        _ => {
            let Link { start, end, weight } = link_in(fields);
            Record::OneWay { start, end, weight }
        }
    }
}
