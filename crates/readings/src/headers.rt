// What a job's header says: its version, and how many certificates and runs follow.

ghost use Rattle.readings.specs.Ranges.{least_version, greatest_version, version, greatest_certificate_count, certificate_count, least_run_count, greatest_run_count, run_count};
ghost use Rattle.readings.specs.InOrder.{unsigned};

use crate::range::Reading;

// A job file's version. In the second a letter follows each serial number, and a meter that moved voids a run.
#[derive(Clone, Copy)]
pub enum Version {
    One,
    Two,
}

impl Reading for Version {
    type Value = u16;

    const LEAST: u16 = 1;

    const GREATEST: u16 = 2;

    ghost LEAST = { least_version };

    ghost GREATEST = { greatest_version };

    ghost allowed = { version };

    ghost ranged = { unsigned _ _ };
}

// How many certificates a job holds.
pub struct CertificateCount;

impl Reading for CertificateCount {
    type Value = u16;

    const LEAST: u16 = 0;

    const GREATEST: u16 = 64;

    ghost LEAST = { 0 };

    ghost GREATEST = { greatest_certificate_count };

    ghost allowed = { certificate_count };

    ghost ranged = { unsigned _ _ };
}

// How many runs a job holds.
pub struct RunCount;

impl Reading for RunCount {
    type Value = u16;

    const LEAST: u16 = 1;

    const GREATEST: u16 = 16;

    ghost LEAST = { least_run_count };

    ghost GREATEST = { greatest_run_count };

    ghost allowed = { run_count };

    ghost ranged = { unsigned _ _ };
}
