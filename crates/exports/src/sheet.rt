// The outage table and sheet.
ghost use Rattle.std.specs.Prelude.{◌≡◌, length};
ghost use Rattle.lexical_util.specs.Answer.{written, held};
ghost use Rattle.outage_spec.specs.Calls.{table_sheet, sheet_table};
ghost use Rattle.export_structs.specs.Structs.{number_format_of, options_of, answer_of};

use export_structs::{Answer, Format};

#[unsafe(no_mangle)]
pub extern "C" fn outage_table_to_sheet(table: &[u8], format: Format, sheet: &mut [u8]) -> Answer
    ensures value { result ≡ answer_of (written (table_sheet (number_format_of format) (options_of format) table.now) sheet.old) }
    ensures sheet_after { sheet.new ≡ held (table_sheet (number_format_of format) (options_of format) table.now) sheet.old }
{
    outage_table::table_to_sheet(table, format.into(), format.into(), sheet).into()
}

#[unsafe(no_mangle)]
pub extern "C" fn outage_sheet_to_table(sheet: &[u8], format: Format, table: &mut [u8]) -> Answer
    ensures value { result ≡ answer_of (written (sheet_table (number_format_of format) (options_of format) sheet.now (length table.old)) table.old) }
    ensures table_after { table.new ≡ held (sheet_table (number_format_of format) (options_of format) sheet.now (length table.old)) table.old }
{
    outage_sheet::sheet_to_table(sheet, format.into(), format.into(), table).into()
}
