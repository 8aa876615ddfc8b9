//! Laws of the order, as the clauses of functions that do nothing.
ghost use Rattle.pool_order.specs.Laws.{OrdersReached, NeedsNoDepth, FollowsReached, OrderStays, EntersRowsOnce};
ghost use Rattle.pool_order.specs.Worked.{WorkedOrders};

/// An order has no link twice, exactly what the roots reach, and each link before the rows that have it.
pub fn orders_reached()
    ensures { OrdersReached }
{}

/// Two depths that are both enough give one order.
pub fn needs_no_depth()
    ensures { NeedsNoDepth }
{}

/// The order depends on the links alone of the rows that the roots reach.
pub fn follows_reached()
    ensures { FollowsReached }
{}

/// The order of a heap stays where all that the roots reach stays.
pub fn order_stays<T>()
    ensures { OrderStays T }
{}

/// The order is what a walk lists that enters no row twice.
pub fn enters_rows_once()
    ensures { EntersRowsOnce }
{}

/// Orders of small graphs.
pub fn worked_orders()
    ensures { WorkedOrders }
{}
