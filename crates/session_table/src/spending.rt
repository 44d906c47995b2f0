//! A state and a token must be spent: if one of these types could be dropped, it would have two impls of one trait, and the crate would not
//! compile.
use crate::{Held, Incoming, OpenRefused};

trait IsSpentOrDropped {}

impl<T: Drop> IsSpentOrDropped for T {}

impl IsSpentOrDropped for Incoming {}

impl IsSpentOrDropped for Held {}

impl IsSpentOrDropped for OpenRefused<u8> {}
