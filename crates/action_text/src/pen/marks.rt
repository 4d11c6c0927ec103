//! What a pen writes: bytes, and switches of attributes.
ghost use Rattle.std.specs.Prelude.{◌≡◌, ◌≤◌, length};
ghost use Rattle.action_text.specs.RowTexts.{switched};
ghost use Rattle.action_text.specs.Pens.{left, Wrote};

use crate::pen::Pen;

impl<'a> Pen<'a> {
    /// A pen at the front of a buffer.
    pub fn new(out: &'a mut [u8]) -> Pen<'a>
        ensures front { result.at ≡ 0 }
        ensures buffer { result.out.now ≡ out.old }
        ensures lent { result.out.ghost_name ≡ out.entry.ghost_name }
    {
        Pen { out, at: 0 }
    }

    /// How many bytes are written.
    pub fn written(&self) -> usize
        ensures { result ≡ self.now.at }
    {
        self.at
    }

    /// Writes bytes behind those that are written.
    pub fn put(&mut self, bytes: &[u8])
        requires { length bytes.now ≤ left self.old }
        ensures { Wrote self.old bytes.now self.new }
    {
        let start = self.at;
        let end = start + bytes.len();
        self.out[start..end].copy_from_slice(bytes);
        self.at = end;
    }

    /// Writes 1B, a code and the new value, if that is another than the old one.
    pub fn put_switch(&mut self, code: u8, old: u8, new: u8)
        requires { length (switched code old new) ≤ left self.old }
        ensures { Wrote self.old (switched code old new) self.new }
    {
        if old != new {
            self.put(&[0x1B, code, new]);
        }
    }
}
