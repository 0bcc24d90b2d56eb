// The unit of a record.
ghost use Rattle.retain.specs.Calls.{stored_as};
ghost use Rattle.retain.specs.Units.{UnitOf};

// Its handle in 4 bytes, 1 if it has a moment and 0 if not, three bytes 0, the moment in 8 bytes.
pub fn unit_of(handle: u32, moment: Option<u64>) -> [u8; 16]
    ensures { UnitOf (stored_as handle moment) result }
{
    let mut unit: [u8; 16] = [0; 16];
    lent::put32(&mut unit, 0, handle as u64);
    if let Some(at) = moment {
        unit[4] = 1;
        lent::put64(&mut unit, 8, at);
    }
    unit
}
