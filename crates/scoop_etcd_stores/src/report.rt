//! The report of a store in an etcd that isn't opened, or refuses.

use crate::error::EtcdFault;
use scoop_report::{Hints, Status, hint_of_file, report};

/// Reports the fault of the store that this text names.
pub fn report_etcd(rt: &HostRuntime, hints: Hints, text: &str, fault: EtcdFault) -> Status {
    report(rt, fault);
    hint_of_file(rt, hints, text, fault.advice());
    Status(fault.status())
}
