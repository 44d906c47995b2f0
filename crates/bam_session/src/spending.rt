//! A state must be spent: beside the first `impl`, the others compile only for types that aren't `Drop`.
use crate::incoming::BamIn;
use crate::outgoing::BamOut;

trait IsSpentOrDropped {}

impl<T: Drop> IsSpentOrDropped for T {}

impl IsSpentOrDropped for BamIn {}

impl IsSpentOrDropped for BamOut {}
