// The laws, each as the contract of a function that computes nothing.

ghost use Rattle.ls_serial_orders.specs.Orders.{HasOrderExactly};

/// A history has an order of whole calls exactly if it is linearizable.
pub fn has_order_exactly()
    ensures { HasOrderExactly }
{}
