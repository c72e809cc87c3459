// The packed table.
ghost use Rattle.std.specs.Prelude.{◌≡◌};
ghost use Rattle.lexical_util.specs.Answer.{written, held};
ghost use Rattle.outage_planes_spec.specs.Calls.{packed_table, unpacked_table};
ghost use Rattle.export_structs.specs.Structs.{answer_of};

use export_structs::Answer;

#[unsafe(no_mangle)]
pub extern "C" fn outage_pack(table: &[u8], packed: &mut [u8]) -> Answer
    ensures value { result ≡ answer_of (written (packed_table table.now) packed.old) }
    ensures packed_after { packed.new ≡ held (packed_table table.now) packed.old }
{
    outage_planes::pack(table, packed).into()
}

#[unsafe(no_mangle)]
pub extern "C" fn outage_unpack(packed: &[u8], table: &mut [u8]) -> Answer
    ensures value { result ≡ answer_of (written (unpacked_table packed.now) table.old) }
    ensures table_after { table.new ≡ held (unpacked_table packed.now) table.old }
{
    outage_planes::unpack(packed, table).into()
}
