// The fields of a record, read from the part of the sheet after the record's mark.
ghost use Rattle.std.specs.Prelude.{◌≡◌, ◌≤◌, length};
ghost use Rattle.records.specs.Records.{head_fields, link_in, link_fields, landing_in, landing_fields, sender_fields};

use number_fields::{u16_at, u32_at};

// What `HD` says: sites, stations.
#[derive(Clone, Copy)]
pub struct Head {
    pub n: u16,
    pub k: u8,
}

// What `LK` and `BK` say: from, to, price.
#[derive(Clone, Copy)]
pub struct Link {
    pub start: u16,
    pub end: u16,
    pub weight: u32,
}

// What `ST` says: station, site.
#[derive(Clone, Copy)]
pub struct Landing {
    pub terminal: u8,
    pub node: u16,
}

// How many bytes the fields of `HD`, of `LK` and `BK`, of `ST` and of `SR` take.
const HEAD_BYTES: usize = 3;

const LINK_BYTES: usize = 8;

const LANDING_BYTES: usize = 3;

const SENDER_BYTES: usize = 2;

// The fields of `HD`, where the bytes after the mark are long enough.
pub fn head_fields(fields: &[u8]) -> Option<Head>
    ensures { result ≡ head_fields fields.now }
{
    if fields.len() < HEAD_BYTES {
        return None;
    }
    Some(Head {
        n: u16_at(fields, 0),
        k: fields[2],
    })
}

// The fields of `LK` and `BK`, from bytes that have them.
pub fn link_in(fields: &[u8]) -> Link
    requires { 8 ≤ length fields.now }
    ensures { result ≡ link_in fields.now }
{
    Link {
        start: u16_at(fields, 0),
        end: u16_at(fields, 2),
        weight: u32_at(fields, 4),
    }
}

// The fields of `ST`, from bytes that have them.
pub fn landing_in(fields: &[u8]) -> Landing
    requires { 3 ≤ length fields.now }
    ensures { result ≡ landing_in fields.now }
{
    Landing {
        terminal: fields[0],
        node: u16_at(fields, 1),
    }
}

// The fields of `LK` and `BK`, where the bytes after the mark are long enough.
pub fn link_fields(fields: &[u8]) -> Option<Link>
    ensures { result ≡ link_fields fields.now }
{
    if fields.len() < LINK_BYTES {
        return None;
    }
    Some(link_in(fields))
}

// The fields of `ST`, where the bytes after the mark are long enough.
pub fn landing_fields(fields: &[u8]) -> Option<Landing>
    ensures { result ≡ landing_fields fields.now }
{
    if fields.len() < LANDING_BYTES {
        return None;
    }
    Some(landing_in(fields))
}

// The field of `SR`, a site, where the bytes after the mark are long enough.
pub fn sender_fields(fields: &[u8]) -> Option<u16>
    ensures { result ≡ sender_fields fields.now }
{
    if fields.len() < SENDER_BYTES {
        return None;
    }
    Some(u16_at(fields, 0))
}
