// What a certificate says: what it is of, whose, and the values found.

ghost use Rattle.std.specs.Prelude.{◌≡◌};
ghost use Rattle.readings.specs.Ranges.{meter, nozzle, certificate_kind, least_letter, greatest_letter, letter, least_serial, greatest_serial, serial, rebuild_letter, least_factor, greatest_factor, meter_factor, least_coefficient, greatest_coefficient, coefficient, least_nozzle_diameter, greatest_nozzle_diameter, nozzle_diameter, unused};
ghost use Rattle.readings.specs.InOrder.{unsigned};

use crate::range::Reading;

// What a certificate is of.
pub struct CertificateKind;

impl CertificateKind {
    pub const METER: u8 = 1;

    pub const PITOT: u8 = 2;

    pub const NOZZLE: u8 = 3;
}

impl Reading for CertificateKind {
    type Value = u8;

    const LEAST: u8 = CertificateKind::METER;

    const GREATEST: u8 = CertificateKind::NOZZLE;

    ghost LEAST = { meter };

    ghost GREATEST = { nozzle };

    ghost allowed = { certificate_kind };

    ghost ranged = { unsigned _ _ };
}

// A letter of a maker's name, A to Z.
pub struct Letter;

impl Reading for Letter {
    type Value = u8;

    const LEAST: u8 = 65;

    const GREATEST: u8 = 90;

    ghost LEAST = { least_letter };

    ghost GREATEST = { greatest_letter };

    ghost allowed = { letter };

    ghost ranged = { unsigned _ _ };
}

// A serial number.
pub struct Serial;

impl Reading for Serial {
    type Value = u32;

    const LEAST: u32 = 1;

    const GREATEST: u32 = 4_294_967_295;

    ghost LEAST = { least_serial };

    ghost GREATEST = { greatest_serial };

    ghost allowed = { serial };

    ghost ranged = { unsigned _ _ };
}

// The letter that a rebuild gives, A to Z, or none.
pub struct RebuildLetter;

impl RebuildLetter {
    pub const NONE: u8 = 0;

    pub fn check(value: u8) -> bool
        ensures { result ≡ rebuild_letter value }
    {
        value == RebuildLetter::NONE || Letter::check(value)
    }
}

// Meter factor Y, 1/10,000.
pub struct Factor;

impl Reading for Factor {
    type Value = u16;

    const LEAST: u16 = 9_000;

    const GREATEST: u16 = 11_000;

    ghost LEAST = { least_factor };

    ghost GREATEST = { greatest_factor };

    ghost allowed = { meter_factor };

    ghost ranged = { unsigned _ _ };
}

// Pitot coefficient Cp, 1/1,000.
pub struct Coefficient;

impl Reading for Coefficient {
    type Value = u16;

    const LEAST: u16 = 500;

    const GREATEST: u16 = 1_000;

    ghost LEAST = { least_coefficient };

    ghost GREATEST = { greatest_coefficient };

    ghost allowed = { coefficient };

    ghost ranged = { unsigned _ _ };
}

// A diameter of a nozzle, 0.001 in: in a certificate and in a layout.
pub struct NozzleDiameter;

impl Reading for NozzleDiameter {
    type Value = u16;

    const LEAST: u16 = 100;

    const GREATEST: u16 = 1_000;

    ghost LEAST = { least_nozzle_diameter };

    ghost GREATEST = { greatest_nozzle_diameter };

    ghost allowed = { nozzle_diameter };

    ghost ranged = { unsigned _ _ };
}

// A field that the file format fixes at 0.
pub struct Unused;

impl Reading for Unused {
    type Value = u16;

    const LEAST: u16 = 0;

    const GREATEST: u16 = 0;

    ghost LEAST = { 0 };

    ghost GREATEST = { 0 };

    ghost allowed = { unused };

    ghost ranged = { unsigned _ _ };
}
