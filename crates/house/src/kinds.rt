// The house records of the seven kinds (docs/HOUSE.md).
ghost use Rattle.std.specs.Prelude.{refl};
ghost use Rattle.house.specs.House.{interface_fields, transmitter_fields, blinds_fields, security_fields, climate_fields, rain_fields, meter_fields};

use crate::kind::HouseKind;
use actors::blinds::BlindsKind;
use actors::records::{Blinds, Security};
use actors::security::SecurityKind;
use control::interface::InterfaceKind;
use control::records::{InterfaceMessage, TransmitterMessage};
use control::transmitter::TransmitterKind;
use frame::kind::Kind;
use refusal::output::put;
use refusal::refusals::Refusal;
use sensors::climate::ClimateKind;
use sensors::meter::MeterKind;
use sensors::rain::RainKind;
use sensors::records::{Climate, Meter, Rain};

impl HouseKind for InterfaceKind {
    const MAP: u16 = 0x2001;

    ghost MAP = { 0x2001 };

    ghost fields = { interface_fields };

    ghost laid_so = { λ seq r. refl };

    // The fields are the data of the frame.
    fn write_fields(record: &InterfaceMessage, out: &mut [u8]) -> Result<usize, Refusal> {
        InterfaceKind::write(record, out)
    }
}

impl HouseKind for TransmitterKind {
    const MAP: u16 = 0x0009;

    ghost MAP = { 0x0009 };

    ghost fields = { transmitter_fields };

    ghost laid_so = { λ seq r. refl };

    // The fields are the data of the frame.
    fn write_fields(record: &TransmitterMessage, out: &mut [u8]) -> Result<usize, Refusal> {
        TransmitterKind::write(record, out)
    }
}

impl HouseKind for BlindsKind {
    const MAP: u16 = 0x180F;

    ghost MAP = { 0x180F };

    ghost fields = { blinds_fields };

    ghost laid_so = { λ seq r. refl };

    fn write_fields(blinds: &Blinds, out: &mut [u8]) -> Result<usize, Refusal> {
        let [id0, id1, id2, id3] = blinds.id.to_be_bytes();
        put(
            &[
                id0,
                id1,
                id2,
                id3,
                blinds.unit,
                blinds.command,
                blinds.battery,
                blinds.strength,
            ],
            out,
        )
    }
}

impl HouseKind for SecurityKind {
    const MAP: u16 = 0x180B;

    ghost MAP = { 0x180B };

    ghost fields = { security_fields };

    ghost laid_so = { λ seq r. refl };

    fn write_fields(security: &Security, out: &mut [u8]) -> Result<usize, Refusal> {
        let [id0, id1, id2, id3] = security.id.to_be_bytes();
        put(
            &[
                id0,
                id1,
                id2,
                id3,
                security.status,
                security.battery,
                security.strength,
            ],
            out,
        )
    }
}

impl HouseKind for ClimateKind {
    const MAP: u16 = 0x1873;

    ghost MAP = { 0x1873 };

    ghost fields = { climate_fields };

    ghost laid_so = { λ seq r. refl };

    fn write_fields(climate: &Climate, out: &mut [u8]) -> Result<usize, Refusal> {
        let [id0, id1, id2, id3] = (climate.id as u32).to_be_bytes();
        let [t0, t1] = climate.temperature.to_be_bytes();
        let [p0, p1] = climate.pressure.to_be_bytes();
        put(
            &[
                id0,
                id1,
                id2,
                id3,
                t0,
                t1,
                climate.humidity,
                climate.humidity_status,
                p0,
                p1,
                climate.forecast,
                climate.battery,
                climate.strength,
            ],
            out,
        )
    }
}

impl HouseKind for RainKind {
    const MAP: u16 = 0x1883;

    ghost MAP = { 0x1883 };

    ghost fields = { rain_fields };

    ghost laid_so = { λ seq r. refl };

    fn write_fields(rain: &Rain, out: &mut [u8]) -> Result<usize, Refusal> {
        let [id0, id1, id2, id3] = (rain.id as u32).to_be_bytes();
        let [r0, r1] = rain.rate.to_be_bytes();
        let [_, t0, t1, t2] = rain.total.to_be_bytes();
        put(
            &[
                id0,
                id1,
                id2,
                id3,
                r0,
                r1,
                t0,
                t1,
                t2,
                rain.battery,
                rain.strength,
            ],
            out,
        )
    }
}

impl HouseKind for MeterKind {
    const MAP: u16 = 0x1403;

    ghost MAP = { 0x1403 };

    ghost fields = { meter_fields };

    ghost laid_so = { λ seq r. refl };

    fn write_fields(meter: &Meter, out: &mut [u8]) -> Result<usize, Refusal> {
        let [id0, id1, id2, id3] = (meter.id as u32).to_be_bytes();
        let [c0, c1, c2, c3] = meter.counter.to_be_bytes();
        put(&[id0, id1, id2, id3, c0, c1, c2, c3, meter.strength], out)
    }
}
