// Plans made by setting fields.

ghost use Rattle.std.specs.Prelude.{◌+◌, ◌≤◌, length};

use crate::Bytes;

// Room for six ends. The bytes behind the plan's own are 0.
#[derive(Clone, Copy)]
pub struct Plan {
    fields: Bytes<31>,
    length: usize,
    ghost within: { length ≤ 31 },
}

// Mark, version, a total field of eight bytes 255, then i, j and m, and room for the ends.
fn header(i: u64, j: u64, m: u64) -> Bytes<31> {
    let mark = Bytes([0; 31]).put(0, b"RCP").put16(3, 1);
    let total = mark.put(5, &[255; 8]);
    total.put16(13, i).put16(15, j).put16(17, m)
}

impl Plan {
    pub fn of(i: u64, j: u64, ends: &[u64]) -> Plan
        requires { length ends.now ≤ 6 }
    {
        let mut fields = header(i, j, ends.len() as u64);
        for (k, &end) in ends.iter().enumerate() {
            fields = fields.put16(19 + 2 * k, end);
        }
        Plan {
            fields,
            length: 19 + 2 * ends.len(),
        }
    }

    // The plan with another field in place of one that it has.
    pub fn put16(self, at: usize, value: u64) -> Plan
        requires { at + 2 ≤ 31 }
    {
        Plan {
            fields: self.fields.put16(at, value),
            length: self.length,
        }
    }

    pub fn bytes(&self) -> &[u8] {
        &self.fields.0[..self.length]
    }

    // So many bytes, of the plan or behind it too.
    pub fn first(&self, length: usize) -> &[u8]
        requires { length ≤ 31 }
    {
        &self.fields.0[..length]
    }
}
