// The sensors' records, lawful by their type: each ghost field is the range test of `Rattle.sensors.specs.Ranges`.
// Subtype, status and forecast are numbers, not enums: each in range is lawful, named or not (docs/DECISIONS.md).
ghost use Rattle.std.specs.Prelude.{◌≡◌, true};
ghost use Rattle.sensors.specs.Ranges.{climate_ok, meter_ok, rain_ok};

#[derive(Clone, Copy, PartialEq, Eq, Debug)]
pub struct Climate {
    pub subtype: u8,
    pub id: u16,
    // in tenths of a degree
    pub temperature: i16,
    pub humidity: u8,
    pub humidity_status: u8,
    pub pressure: u16,
    pub forecast: u8,
    // with the battery one byte of the frame; no type of their own, since programs print the fields as they stand
    pub strength: u8,
    pub battery: u8,
    ghost ok: { climate_ok subtype id temperature humidity humidity_status pressure forecast strength battery ≡ true },
}

#[derive(Clone, Copy, PartialEq, Eq, Debug)]
pub struct Rain {
    pub subtype: u8,
    pub id: u16,
    pub rate: u16,
    // in tenths of a millimetre
    pub total: u32,
    // as in `Climate`
    pub strength: u8,
    pub battery: u8,
    ghost ok: { rain_ok subtype id rate total strength battery ≡ true },
}

#[derive(Clone, Copy, PartialEq, Eq, Debug)]
pub struct Meter {
    pub subtype: u8,
    pub id: u16,
    pub counter: u32,
    // one half of a byte of the frame, whose other half is 0
    pub strength: u8,
    ghost ok: { meter_ok subtype id counter strength ≡ true },
}
