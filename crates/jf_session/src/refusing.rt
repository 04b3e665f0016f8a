// A fault of the store is reported in a reply, or ends the session.
ghost use Rattle.std.specs.Prelude.{◌≡◌};
ghost use Rattle.jf_session.specs.Refusing.{refusal_or_stop, TellsFault};

use crate::stop::Stop;
use jf_script::{Refusal, Reply};
use jf_store::StoreFault;

// The refusal that a fault of the store is reported as, or why the session ends.
fn refusal_or_stop(fault: StoreFault) -> Result<Refusal, Stop>
    ensures { result ≡ refusal_or_stop fault }
{
    match fault {
        StoreFault::Broken => Err(Stop::Broken),
        StoreFault::Last(_) => Ok(Refusal::Last),
        StoreFault::Future(head) => Ok(Refusal::Future(head)),
        StoreFault::Retired(bound) => Ok(Refusal::Retired(bound)),
        StoreFault::Unknown => Ok(Refusal::Unknown),
        StoreFault::Gone => Ok(Refusal::Gone),
        StoreFault::TooMany(keys) => Ok(Refusal::Keys(keys)),
        StoreFault::Full => Ok(Refusal::ForksFull),
        StoreFault::PinsFull => Ok(Refusal::PinsFull),
        StoreFault::DiskFault => Err(Stop::DiskFault),
        StoreFault::Memory => Err(Stop::Memory),
    }
}

/// The reply to a command that the store refused, or why the session ends; it is over then.
pub(crate) fn refusal_reply(fault: StoreFault, over: &mut bool) -> Result<Reply, Stop>
    ensures { TellsFault fault over.old over.new result }
{
    match refusal_or_stop(fault) {
        Ok(why) => Ok(Reply::No(why)),
        Err(stop) => {
            *over = true;
            Err(stop)
        }
    }
}
