// Which devices are allowed.
ghost use Rattle.std.specs.Prelude.{◌≡◌, List};
ghost use Rattle.ug_types.specs.declared.record.DeviceRecord.{DeviceRecord};
ghost use Rattle.ug_cond.specs.Conditions.{matches_some_record};

use ug_types::Query;

/// The devices that are allowed now, as the condition allowed-matches asks for them.
pub trait Allowed {
    /// What is known of each of them.
    ghost records: { Self → List DeviceRecord };

    /// Whether the query matches one of them.
    fn any_allowed(&self, query: &Query) -> bool
        ensures { result ≡ matches_some_record query.now (records self.now) };
}
