//! A state must be spent: beside the first `impl`, the others compile only for types that aren't `Drop`.
use crate::{AwaitCts, AwaitEnd, OutState, Sending, Stepped};

trait IsSpentOrDropped {}

impl<T: Drop> IsSpentOrDropped for T {}

impl IsSpentOrDropped for AwaitCts {}

impl IsSpentOrDropped for Sending {}

impl IsSpentOrDropped for AwaitEnd {}

impl IsSpentOrDropped for OutState {}

impl IsSpentOrDropped for Stepped {}
