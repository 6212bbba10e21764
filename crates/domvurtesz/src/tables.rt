// Questions about a table and its record (docs/RULES.md, Refusals; Reading, writing and the field question).
ghost use Rattle.std.specs.Prelude.{◌≡◌, length};
ghost use Rattle.table.specs.Rules.{judged};
ghost use Rattle.record.specs.Reading.{read_of};
ghost use Rattle.record.specs.Field.{field_of};
ghost use Rattle.writer.specs.Writing.{write_of, written};

use record::{FieldAnswer, ReadAnswer};
use table::{Refusal, Table};
use writer::WriteAnswer;

#[unsafe(no_mangle)]
pub extern "C" fn domvurtesz_judge(table: Table) -> Refusal
    ensures { result ≡ judged table }
{
    Refusal::from(judge::judge(&table))
}

#[unsafe(no_mangle)]
pub extern "C" fn domvurtesz_read(bytes: &[u8]) -> ReadAnswer
    ensures { result ≡ read_of bytes.now }
{
    ReadAnswer::from(record::read(bytes))
}

#[unsafe(no_mangle)]
pub extern "C" fn domvurtesz_write(table: Table, out: &mut [u8]) -> WriteAnswer
    ensures value { result ≡ write_of table (length out.old) }
    ensures out_after { out.new ≡ written table out.old }
{
    WriteAnswer::from(writer::write(table, out))
}

// The payload of field k as an offset and a length.
#[unsafe(no_mangle)]
pub extern "C" fn domvurtesz_field(bytes: &[u8], k: usize) -> FieldAnswer
    ensures { result ≡ field_of bytes.now k }
{
    FieldAnswer::from(record::field_place(bytes, k))
}
