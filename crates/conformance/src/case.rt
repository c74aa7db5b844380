//! Cases that are worked over the kind of value that they name.
use crate::fault::Fault;
use crate::settings::Chosen;
use crate::show::Shown;
use kinds::bounds::BoundKind;
use kinds::enclosures::EnclosedKind;
use kinds::kind::Kind;
use kinds::words::WordKind;

/// A case that can be worked over any kind.
pub trait Case {
    /// Works it, as the fields after the kind say.
    fn work<K: Kind + Drop>(
        rt: &HostRuntime,
        kind: K,
        setting: &Chosen,
        fields: &[&str],
    ) -> Result<(), Fault>
    where
        K::Value: Shown;
}

/// Works a case over the kind of this name.
pub fn work_over<C: Case>(
    rt: &HostRuntime,
    name: &str,
    setting: &Chosen,
    fields: &[&str],
) -> Result<(), Fault> {
    // A closure cannot be generic over the kind, so a trait carries the step.
    match name {
        "word" => C::work(rt, WordKind, setting, fields),
        "enclosed" => C::work(rt, EnclosedKind, setting, fields),
        "bound" => C::work(rt, BoundKind, setting, fields),
        _ => Err(Fault::Unread),
    }
}
