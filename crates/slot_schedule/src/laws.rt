//! The laws of list plans.
ghost use Rattle.slot_schedule.specs.Laws.{PlansAreOne};
ghost use Rattle.slot_schedule.specs.Ordered.{MemoriesAreUsedOnce, ValuesAreReady, WiresCarryOne};

use clock_rank::orders_are_sorted;
use history_law::drivers::driver_is_read_bit;

/// A frame has at most one list plan.
pub fn plans_are_one()
    ensures { PlansAreOne }
{
    orders_are_sorted();
}

/// In a list plan each value is ready before it is used.
pub fn values_are_ready()
    ensures { ValuesAreReady }
{}

/// In a list plan no wire carries two deliveries at a time.
pub fn wires_carry_one()
    ensures { WiresCarryOne }
{}

/// In a list plan no memory is read or written twice in a slot.
pub fn memories_are_used_once()
    ensures { MemoriesAreUsedOnce }
{
    driver_is_read_bit();
}
