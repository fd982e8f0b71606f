// A file that was read from the front to the end and is in no trouble.

ghost use Rattle.job.specs.Reading.{ClearJob};

use crate::Job;
use opening::JobFile;

// The file, and the job in it.
#[derive(Clone, Copy)]
pub struct ClearFile<'a> {
    pub file: JobFile<'a>,
    pub job: Job,
    pub ghost clear: { ClearJob file.bytes.now job },
}
