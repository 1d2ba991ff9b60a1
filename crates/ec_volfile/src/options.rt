// The options of a disperse section.
ghost use Rattle.std.specs.Prelude.{◌≡◌, Some, None};
ghost use Rattle.ec_volfile.specs.Options.{key_of, policy_of, says_on, says_off, eager_of, cache_of, window_of, kernel_of, systematic_of, once};

use crate::fault::VolumeFault;
use crate::number::number_of;
use crate::volume::Kernel;
use ec_attr::Policy;

/// The named options.
#[derive(Clone, Copy, Debug, PartialEq, Eq)]
pub(crate) enum Key {
    Redundancy,
    ReadPolicy,
    EagerLock,
    StripeCache,
    HealWindow,
    CpuExtensions,
    CodeRows,
}

/// What the options of a section are set to so far.
#[derive(Clone, Copy, Debug)]
pub(crate) struct Options {
    pub redundancy: Option<u32>,
    pub policy: Option<Policy>,
    pub eager: Option<bool>,
    pub cache: Option<u8>,
    pub window: Option<u32>,
    pub kernel: Option<Kernel>,
    pub systematic: Option<bool>,
}

#[tactic(auto, unfolding(crate::specs::Options::key_of))]
pub(crate) fn key_of(word: &[u8]) -> Option<Key>
    ensures { result ≡ key_of word.now }
{
    if word == b"redundancy".as_slice() {
        Some(Key::Redundancy)
    } else if word == b"read-policy".as_slice() {
        Some(Key::ReadPolicy)
    } else if word == b"eager-lock".as_slice() {
        Some(Key::EagerLock)
    } else if word == b"stripe-cache".as_slice() {
        Some(Key::StripeCache)
    } else if word == b"self-heal-window-size".as_slice() {
        Some(Key::HealWindow)
    } else if word == b"cpu-extensions".as_slice() {
        Some(Key::CpuExtensions)
    } else if word == b"code-rows".as_slice() {
        Some(Key::CodeRows)
    } else {
        None
    }
}

#[tactic(auto, unfolding(crate::specs::Options::policy_of))]
fn policy_of(value: &[u8]) -> Option<Policy>
    ensures { result ≡ policy_of value.now }
{
    if value == b"round-robin".as_slice() {
        Some(Policy::RoundRobin)
    } else if value == b"gfid-hash".as_slice() {
        Some(Policy::GfidHash)
    } else {
        None
    }
}

fn says_on(value: &[u8]) -> bool
    ensures { result ≡ says_on value.now }
{
    value == b"on".as_slice()
        || value == b"yes".as_slice()
        || value == b"true".as_slice()
        || value == b"enable".as_slice()
        || value == b"1".as_slice()
}

fn says_off(value: &[u8]) -> bool
    ensures { result ≡ says_off value.now }
{
    value == b"off".as_slice()
        || value == b"no".as_slice()
        || value == b"false".as_slice()
        || value == b"disable".as_slice()
        || value == b"0".as_slice()
}

#[tactic(auto, unfolding(crate::specs::Options::eager_of))]
fn eager_of(value: &[u8]) -> Option<bool>
    ensures { result ≡ eager_of value.now }
{
    if says_on(value) {
        Some(true)
    } else if says_off(value) {
        Some(false)
    } else {
        None
    }
}

#[tactic(auto, unfolding(crate::specs::Options::cache_of))]
fn cache_of(value: &[u8]) -> Option<u8>
    ensures { result ≡ cache_of value.now }
{
    match number_of(value) {
        Some(n) => Some(n.min(10) as u8),
        None => None,
    }
}

#[tactic(auto, unfolding(crate::specs::Options::window_of))]
fn window_of(value: &[u8]) -> Option<u32>
    ensures { result ≡ window_of value.now }
{
    match number_of(value) {
        Some(n) if 1 <= n && n <= 1024 => Some(n),
        _ => None,
    }
}

#[tactic(auto, unfolding(crate::specs::Options::kernel_of))]
fn kernel_of(value: &[u8]) -> Kernel
    ensures { result ≡ kernel_of value.now }
{
    if value == b"none".as_slice() {
        Kernel::Plain
    } else {
        Kernel::Fused
    }
}

#[tactic(auto, unfolding(crate::specs::Options::systematic_of))]
fn systematic_of(value: &[u8]) -> Option<bool>
    ensures { result ≡ systematic_of value.now }
{
    if value == b"plain".as_slice() {
        Some(false)
    } else if value == b"systematic".as_slice() {
        Some(true)
    } else {
        None
    }
}

/// The value of an option that is set now, where it can be set.
fn once<A: Drop>(old: Option<A>, value: Option<A>) -> Result<A, VolumeFault>
    ensures { result ≡ once old value }
{
    if old.is_some() {
        return Err(VolumeFault::Twice);
    }
    value.ok_or(VolumeFault::BadValue)
}

impl Options {
    ghost use Rattle.std.specs.Prelude.{◌≡◌};
    ghost use Rattle.ec_volfile.specs.Options.{set};

    /// The options with nothing set.
    pub fn new() -> Options
        ensures { result ≡ record { redundancy = None; policy = None; eager = None; cache = None; window = None; kernel = None; systematic = None } }
    {
        Options {
            redundancy: None,
            policy: None,
            eager: None,
            cache: None,
            window: None,
            kernel: None,
            systematic: None,
        }
    }

    /// The options after this one is set to a value.
    #[tactic(auto, unfolding(crate::specs::Options::set))]
    pub fn set(self, key: Key, value: &[u8]) -> Result<Options, VolumeFault>
        ensures { result ≡ set self key value.now }
    {
        let mut options = self;
        match key {
            Key::Redundancy => {
                options.redundancy = Some(once(self.redundancy, number_of(value))?);
            }
            Key::ReadPolicy => options.policy = Some(once(self.policy, policy_of(value))?),
            Key::EagerLock => options.eager = Some(once(self.eager, eager_of(value))?),
            Key::StripeCache => options.cache = Some(once(self.cache, cache_of(value))?),
            Key::HealWindow => options.window = Some(once(self.window, window_of(value))?),
            Key::CpuExtensions => {
                options.kernel = Some(once(self.kernel, Some(kernel_of(value)))?);
            }
            Key::CodeRows => {
                options.systematic = Some(once(self.systematic, systematic_of(value))?);
            }
        }
        Ok(options)
    }
}
