//! The way in which values leave a struct, so that contracts see all that left.
use rtrb::{Consumer, Producer, RingBuffer};
use std::alloc::{AllocError, Global};
use std::marker::Model;

/// Hands items out, one after another; contracts see all that were handed out, in order.
///
/// So a struct that gives values away keeps no copy of them, and its contracts have a history of them. It is a ring with one
/// place, and both its ends are inside: an item is pushed and popped at once. Only `new` takes memory; nothing here waits.
#[derive(Drop)]
pub struct Outlet<T> {
    producer: Producer<T>,
    consumer: Consumer<T>,
}

impl<T> Model for Outlet<T> {
    ghost use Rattle.std.specs.Prelude.{◌≡◌, List};
    ghost use Rattle.rtrb.specs.Ring.{sent, received, producer_capacity, IsPair};

    ghost Value = { List T };

    ghost view = { λ o. received o.consumer };

    ghost invariant = { λ o. IsPair o.producer o.consumer × (sent o.producer ≡ received o.consumer) × (producer_capacity o.producer ≡ 1) };
}

ghost use Rattle.std.specs.Prelude.{◌≡◌, [], ◌∷◌, ◌++◌, IfOk};

impl<T: Drop> Outlet<T> {
    /// An outlet that has handed out nothing.
    pub fn new(alloc: Global) -> Result<Outlet<T>, AllocError>
        ensures { IfOk result (λ o. o ≡ []) }
    {
        let (producer, consumer) = RingBuffer::new(alloc, 1)?;
        Ok(Outlet { producer, consumer })
    }
}

impl<T> Outlet<T> {
    /// Hands an item out, the very one that it is given. It takes no memory and no lock, and never waits.
    pub fn hand_out(&mut self, item: T) -> T
        ensures value { result ≡ item }
        ensures handed { self.new ≡ self.old ++ item ∷ [] }
    {
        self.producer.slots_beside(&mut self.consumer);
        self.producer.push_reserved(item);
        self.consumer.slots_beside(&mut self.producer);
        self.consumer.pop_known()
    }
}
