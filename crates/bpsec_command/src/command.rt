//! The commands.

/// A command, with the numbers that its words give. Where it names files, its third word is the name of a text, and its
/// fifth that of a key ring.
#[derive(Clone, Copy, Debug, PartialEq, Eq)]
pub enum Command {
    /// `check`: whether the input is a bundle.
    Check,
    /// `explain`: the bundle in lines.
    Explain,
    /// `build --text NAME`: the bundle of a text.
    Build,
    /// `upgrade --policy NAME`: a policy as a text of version 2.
    Upgrade,
    /// `secure --plan NAME --keys NAME`: the security blocks of a plan added to the bundle.
    Secure,
    /// `fragment --size N`: the bundle cut into fragments of so many bytes of payload.
    Fragment {
        size: u64,
    },
    /// `reassemble`: the fragments of the input joined.
    Reassemble,
    /// `node --policy NAME --keys NAME --order N`: what a node makes of the bundle.
    Node {
        order: u64,
    },
    /// `status --policy NAME --keys NAME --order N --time N --sequence N`: the status report of what a node makes of it.
    Status {
        order: u64,
        time: u64,
        sequence: u64,
    },
    /// `audit --policy NAME --keys NAME`: what a policy does that its owner may not have meant.
    AuditPolicy,
    /// `audit --plan NAME --keys NAME`: what a plan does so.
    AuditPlan,
    /// `--help`: the lines of the grammar.
    Help,
    /// `--version`: the name and the version.
    Version,
}
