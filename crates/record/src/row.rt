// Rows of fields: the widths of a record's fields in their order, and the values that stand in them.
ghost use Rattle.std.specs.Prelude.{◌≡◌, ◌≤◌, length, IsTrue};
ghost use Rattle.std.proofs.lemmas.List.Edits.{sets};
ghost use Rattle.record.specs.Row.{row_length, row_bytes, values_at};
ghost use Rattle.record.specs.inner.Fields.{headed};
ghost use Rattle.record.specs.inner.Narrow.{narrowly, Held};

use crate::field::{number_in, put_number};

// The most fields that a record has, its length and its kind among them.
const FIELDS: usize = 8;

// The widths of a row's fields, filled up with 0 to eight as each row of specs/Layout.antt is.
#[derive(Clone, Copy)]
pub(crate) struct Row {
    pub(crate) widths: [usize; FIELDS],
    ghost narrow: { IsTrue (narrowly widths) },
}

// The values of a row's fields in their order, filled up with 0 to eight.
pub(crate) type Values = [u32; FIELDS];

impl Row {
    // The bytes of a row: its widths together.
    pub(crate) fn length(self) -> usize
        ensures length { result ≡ row_length self.widths }
        ensures short { result ≤ 32 }
    {
        self.widths.iter().sum()
    }

    // The values that stand in the row that begins a slice. By index: of what a zip with iter_mut has written a proof knows nothing.
    pub(crate) fn values_at(self, bytes: &[u8]) -> Values
        requires { row_length self.widths ≤ length bytes.now }
        ensures values { result ≡ values_at self.widths bytes.now 0 }
        ensures fit { Held self.widths result }
    {
        let mut values = [0; FIELDS];
        let mut place = 0;
        for (i, width) in self.widths.iter().enumerate() {
            let behind = place + *width;
            values[i] = number_in(&bytes[place..behind]);
            place = behind;
        }
        values
    }

    // The values of a record: in front of its fields the length that its row gives it, and its kind, as a number since a reply's is no `Kind`.
    pub(crate) fn headed(self, kind: u16, fields: Values) -> Values
        ensures { result ≡ headed self.widths kind fields }
    {
        let mut values = fields;
        values[0] = self.length() as u32;
        values[1] = u32::from(kind);
        values
    }

    // Puts a row of values into the bytes that begin a part.
    pub(crate) fn put(self, part: &mut [u8], values: Values)
        requires { row_length self.widths ≤ length part.old }
        ensures { part.new ≡ sets part.old 0 (row_bytes self.widths values) }
    {
        let mut place = 0;
        for (width, value) in self.widths.iter().zip(values.iter()) {
            let behind = place + *width;
            put_number(&mut part[place..behind], *value);
            place = behind;
        }
    }
}
