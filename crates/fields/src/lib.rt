// The rows of a frame as records: a `Field` holds its `Role`, with the programme that the role speaks of, and the row's other
// seven numbers.
#![tactic(auto)]

ghost use Rattle.std.specs.Prelude.{◌≡◌, ◌≤◌, ◌+◌, ◌*◌, min, ◌/◌, length, replicate, pos};
ghost use Rattle.std.proofs.lemmas.List.Edits.{sets};
ghost use Rattle.syntax.specs.Numbers.{row_width};
ghost use Rattle.ac3.specs.RowBound.{most_rows};
ghost use Rattle.fields.specs.Fields.{programme_of, role_of, field_of, row_of, row_at, field_at, filled, fitting, offered, rows_written, answer_within, parsed, blank, parsed_through};

use ac3::{Answer, MOST_ROWS};
use syntax::{NONE, ROW, Role};

// The numbers of the most rows that a frame can have.
const NUMBERS: usize = MOST_ROWS * ROW;

// -1 stands for "none" in block, index and part.
#[derive(Clone, Copy)]
pub struct Field {
    pub name: i32,
    pub role: Role,
    pub block: i32,
    pub index: i32,
    pub position: i32,
    pub width: i32,
    pub value: i32,
    pub part: i32,
}

// The programme of a row as a role holds it.
fn programme_of(n: i32) -> u8
    ensures { result ≡ programme_of n }
{
    u8::try_from(n).unwrap_or(NONE)
}

// The role of a number, for programme p; a number that is no role's is Plain's.
#[tactic(auto, unfolding(crate::specs::Fields::role_of))]
fn role_of(n: usize, p: u8) -> Role
    ensures { result ≡ role_of n p }
{
    match n {
        1 => Role::Sync,
        2 => Role::Crc1,
        3 => Role::Crc2,
        4 => Role::CrcRsv,
        5 => Role::FrameSize,
        6 => Role::Dialnorm(p),
        7 => Role::ComprExists(p),
        8 => Role::Compr(p),
        9 => Role::DynrngExists(p),
        10 => Role::Dynrng(p),
        11 => Role::Skiple,
        12 => Role::Skipl,
        13 => Role::Skipfld,
        14 => Role::Addbsi,
        15 => Role::Mantissas,
        16 => Role::AuxBits,
        17 => Role::AuxDataL,
        18 => Role::AuxDataE,
        19 => Role::BlkStrtInfoE,
        20 => Role::BlkStrtInfo,
        _ => Role::Plain,
    }
}

// The record of a row.
pub fn field_of(row: [i32; ROW]) -> Field
    ensures { result ≡ field_of row }
{
    let programme = programme_of(row[2]);
    let role = role_of(signed::clamp(row[1], 21), programme);
    Field {
        name: row[0],
        role,
        block: row[3],
        index: row[4],
        position: row[5],
        width: row[6],
        value: row[7],
        part: row[8],
    }
}

// The row of a record.
pub fn row_of(field: Field) -> [i32; ROW]
    ensures { result ≡ row_of field }
{
    let numbers = syntax::rows::role_numbers(field.role);
    [
        field.name,
        numbers.0 as i32,
        syntax::rows::shown(numbers.1),
        field.block,
        field.index,
        field.position,
        field.width,
        field.value,
        field.part,
    ]
}

// Row i of a run of rows, as a record.
fn field_at(rows: &[i32], i: usize) -> Field
    requires { i * row_width + row_width ≤ length rows.now }
    ensures { result ≡ field_at rows.now i }
{
    let at = i * ROW;
    field_of([
        rows[at],
        rows[at + 1],
        rows[at + 2],
        rows[at + 3],
        rows[at + 4],
        rows[at + 5],
        rows[at + 6],
        rows[at + 7],
        rows[at + 8],
    ])
}

fn fitting(numbers: usize, count: usize, room: usize) -> usize
    ensures { result ≡ fitting numbers count room }
{
    count.min(numbers / ROW).min(room)
}

// Room for as many rows as a frame can have. (Whoever calls it knows the array by what it ensures, and need not compute with it.)
fn no_rows() -> [i32; NUMBERS]
    ensures { result ≡ replicate (most_rows * row_width) (pos 0) }
{
    [0i32; NUMBERS]
}

// The frame that starts at a place of a capture, with room for at most n rows of those that are lent.
fn parse_within(n: usize, capture: &[u8], place: usize, rows: &mut [i32]) -> Answer
    ensures { (result, rows.new) ≡ answer_within (min n (length rows.old / row_width)) capture.now place rows.old }
{
    let room = n.min(rows.len() / ROW);
    ac3::parse(capture, place, &mut rows[..room * ROW])
}

// Row i of a run of rows is written over.
fn put_row(rows: &mut [i32], i: usize, row: [i32; ROW])
    requires { i * row_width + row_width ≤ length rows.old }
    ensures { rows.new ≡ sets rows.old (i * row_width) (row_at row 0) }
{
    let at = i * ROW;
    rows[at..at + ROW].copy_from_slice(&row);
}

// As many records as a frame can have rows, all of a row of zeros.
fn no_fields() -> [Field; MOST_ROWS]
    ensures { result ≡ replicate most_rows blank }
{
    let field = field_of([0i32; ROW]);
    [field; MOST_ROWS]
}

// ---- runs of records

// The first rows, as records, in front of the run.
fn fill(rows: &[i32], count: usize, fields: &mut [Field])
    requires { (count * row_width ≤ length rows.now) × (count ≤ length fields.old) }
    ensures { fields.new ≡ filled (field_at rows.now) count fields.old }
{
    for i in 0..count {
        fields[i] = field_at(rows, i);
    }
}

// As many of the first `count` rows as there are and as the run has room for. Answers how many.
pub fn offer(rows: &[i32], count: usize, fields: &mut [Field]) -> usize
    ensures { (result, fields.new) ≡ offered rows.now count fields.old }
{
    let n = fitting(rows.len(), count, fields.len());
    fill(rows, n, fields);
    n
}

// As many of the first `count` records as there are and as the run has room for, as rows. Answers how many.
pub fn rows_of(fields: &[Field], count: usize, rows: &mut [i32]) -> usize
    ensures { (result, rows.new) ≡ rows_written fields.now count rows.old }
{
    let n = fitting(rows.len(), count, fields.len());
    for i in 0..n {
        put_row(rows, i, row_of(fields[i]));
    }
    n
}

// The frame that starts at a place of a capture: its rows are offered over the run. A run of n records is room for n rows. (More rows than
// a frame can have are never written, so there is no need to keep more.)
pub fn parse_fields(capture: &[u8], place: usize, fields: &mut [Field]) -> Answer
    ensures { (result, fields.new) ≡ parsed capture.now place fields.old }
{
    let mut rows = no_rows();
    let answer = parse_within(fields.len(), capture, place, &mut rows);
    offer(&rows, answer.rows, fields);
    answer
}

// The frame that starts at a place of a capture, read into records; its rows are made of those. It exists so that records are run, not only
// proved: crate `replay` holds these rows against the judge's.
pub fn parse_through(capture: &[u8], place: usize, rows: &mut [i32]) -> Answer
    ensures { (result, rows.new) ≡ parsed_through capture.now place rows.old }
{
    let mut fields = no_fields();
    let answer = parse_fields(capture, place, &mut fields);
    rows_of(&fields, answer.rows, rows);
    answer
}
