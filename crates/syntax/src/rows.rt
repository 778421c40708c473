// The rows: each element is recorded as a row of numbers in the rows that the caller lends.
ghost use Rattle.std.specs.Prelude.{◌≡◌, false, ltb, ◌<◌, ◌≤◌, ◌+◌, length};
ghost use Rattle.std.proofs.lemmas.List.Edits.{sets};
ghost use Rattle.syntax.specs.Numbers as numbers;
ghost use Rattle.syntax.specs.Run.{row, spanning};
ghost use Rattle.syntax.specs.Reads.{recorded, entered, closed, Writes};

use crate::refusals::past;
use crate::{Item, NONE, ROW, Reader, Refusal, Role, RoleNumbers};

// The numbers of a role. (Public for the records that stand above the rows.)
pub fn role_numbers(role: Role) -> RoleNumbers
    ensures { result ≡ numbers.role_numbers role }
{
    match role {
        Role::Plain => RoleNumbers(0, NONE),
        Role::Sync => RoleNumbers(1, NONE),
        Role::Crc1 => RoleNumbers(2, NONE),
        Role::Crc2 => RoleNumbers(3, NONE),
        Role::CrcRsv => RoleNumbers(4, NONE),
        Role::FrameSize => RoleNumbers(5, NONE),
        Role::Dialnorm(p) => RoleNumbers(6, p),
        Role::ComprExists(p) => RoleNumbers(7, p),
        Role::Compr(p) => RoleNumbers(8, p),
        Role::DynrngExists(p) => RoleNumbers(9, p),
        Role::Dynrng(p) => RoleNumbers(10, p),
        Role::Skiple => RoleNumbers(11, NONE),
        Role::Skipl => RoleNumbers(12, NONE),
        Role::Skipfld => RoleNumbers(13, NONE),
        Role::Addbsi => RoleNumbers(14, NONE),
        Role::Mantissas => RoleNumbers(15, NONE),
        Role::AuxBits => RoleNumbers(16, NONE),
        Role::AuxDataL => RoleNumbers(17, NONE),
        Role::AuxDataE => RoleNumbers(18, NONE),
        Role::BlkStrtInfoE => RoleNumbers(19, NONE),
        Role::BlkStrtInfo => RoleNumbers(20, NONE),
    }
}

// A block, an index, a programme or a part as a row says it. (Public for the same reason.)
pub fn shown(n: u8) -> i32
    ensures { result ≡ numbers.shown n }
{
    if n == NONE { -1 } else { n as i32 }
}

// Writes a row from place `to` on.
#[inline(always)]
fn write_row(rows: &mut [i32], to: usize, item: Item, start: u16, width: u16, value: u32)
    requires { (to + numbers.row_width ≤ length rows.old) × (value < 65536) }
    ensures { rows.new ≡ sets rows.old to (numbers.numbers (row spanning item start width value)) }
{
    let role = item.role;
    let numbers = role_numbers(role);
    rows[to] = item.name as i32;
    rows[to + 1] = numbers.0 as i32;
    rows[to + 2] = shown(numbers.1);
    rows[to + 3] = shown(item.block);
    rows[to + 4] = shown(item.index);
    rows[to + 5] = start as i32;
    rows[to + 6] = width as i32;
    rows[to + 7] = value as i32;
    rows[to + 8] = shown(item.part);
}

impl Reader<'_> {
    // Whether so many bits more would end past the frame.
    pub fn ends_past(&self, width: u16) -> bool
        ensures value { result ≡ ltb self.now.limit (self.now.at + width) }
        ensures fits { result ≡ false → self.now.at + width < 65536 }
    {
        (self.limit as usize) < self.at as usize + width as usize
    }

    // Records an element whose bits were found to fit, and stands after them: refused where no row is left.
    #[inline(always)]
    fn enter(&mut self, item: Item, start: u16, width: u16, value: u32) -> Result<(), Refusal>
        requires { (start + width < 65536) × (value < 65536) }
        ensures { Writes (entered item start width value) self.old result self.new }
    {
        if self.rows.len() / ROW <= self.count {
            return Err(Refusal::Full);
        }
        write_row(self.rows, self.count * ROW, item, start, width, value);
        self.at = start + width;
        self.count += 1;
        Ok(())
    }

    // Records an element with its value and passes over its bits: refused where it would end past the frame. (Public for the readers.)
    #[inline(always)]
    pub fn put(&mut self, item: Item, width: u16, value: u32) -> Result<(), Refusal>
        requires { value < 65536 }
        ensures { Writes (recorded item width value) self.old result self.new }
    {
        if self.ends_past(width) {
            return Err(past(item));
        }
        let at = self.at;
        self.enter(item, at, width, value)
    }

    // Records what was walked since bit `start` as one span: refused, at the walk's end, where no row is left.
    pub fn close(&mut self, item: Item, start: u16) -> Result<(), Refusal>
        requires { start ≤ self.old.at }
        ensures { Writes (closed item start) self.old result self.new }
    {
        let width = self.at - start;
        self.enter(item, start, width, 0)
    }
}
