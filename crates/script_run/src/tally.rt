// How often each return code was replied, and how much data the replies held.
ghost use Rattle.std.specs.Prelude.{◌≡◌, ◌+◌, ◌≤◌, [], ◌∷◌, ◌++◌, ℕ, List};
ghost use Rattle.apex_model.specs.Run.{Told};
ghost use Rattle.script_run.specs.Tally.{data_size, tally_of, IsWithin};

use apex_types::{Reply, ReturnCode, Values};

/// How many replies there were, how many had each return code, and how much data they held. No reply
/// has TIMED_OUT.
#[derive(Clone, Copy)]
pub struct Tally {
    pub replies: u32,
    pub no_error: u32,
    pub no_action: u32,
    pub not_available: u32,
    pub invalid_param: u32,
    pub invalid_config: u32,
    pub invalid_mode: u32,
    /// The bytes of all data together.
    pub data_bytes: u32,
}

// How many bytes of data some values hold.
fn data_size(values: &Values) -> u32
    ensures value { result ≡ data_size values.now }
    ensures few { result ≤ 4096 }
{
    match values {
        Values::Read(bytes) => bytes.bytes().len() as u32,
        Values::Entry { bytes, .. } => bytes.bytes().len() as u32,
        Values::Message { bytes, .. } => bytes.bytes().len() as u32,
        _ => 0,
    }
}

impl Tally {
    /// The tally of no replies.
    pub fn new() -> Tally
        ensures { result ≡ tally_of [] }
    {
        Tally {
            replies: 0,
            no_error: 0,
            no_action: 0,
            not_available: 0,
            invalid_param: 0,
            invalid_config: 0,
            invalid_mode: 0,
            data_bytes: 0,
        }
    }

    /// Counts a reply. No script has more than 20,000 lines, and no reply more than 4,096 bytes of
    /// data, so that no count wraps.
    pub fn add(&mut self, reply: &Reply)
        requires few { IsWithin 19999 self.old }
        ensures added { (replies : List Told) (told : Told) → told.reply ≡ reply.now
            → self.old ≡ tally_of replies → self.new ≡ tally_of (replies ++ told ∷ []) }
        ensures within { (n : ℕ) → IsWithin n self.old → IsWithin (n + 1) self.new }
    {
        self.replies += 1;
        self.data_bytes += data_size(&reply.values);
        match reply.code {
            ReturnCode::NoError => self.no_error += 1,
            ReturnCode::NoAction => self.no_action += 1,
            ReturnCode::NotAvailable => self.not_available += 1,
            ReturnCode::InvalidParam => self.invalid_param += 1,
            ReturnCode::InvalidConfig => self.invalid_config += 1,
            ReturnCode::InvalidMode => self.invalid_mode += 1,
            ReturnCode::TimedOut => {}
        }
    }
}
