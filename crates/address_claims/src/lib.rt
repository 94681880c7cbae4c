// W1, no board at a reserved address, stated where a reader meets it. The functions do nothing.
#![tactic(auto)]

ghost use Rattle.ledger.specs.Calls.{ruled};
ghost use Rattle.address_claims.specs.Addresses.{SetAddressAnswered, NeverReserved, NewAddressRead};

// The one equation: another type gets silence, a reserved address is refused, any other is taken.
pub fn set_address_answered()
    ensures { SetAddressAnswered }
{}

// From the fresh board, over every list of calls, no reserved address is ever the own address.
pub fn never_reserved()
    ensures { NeverReserved ruled (λ s. s.address) }
{}

// On I²C every OK to set address is read at the new address.
pub fn new_address_read()
    ensures { NewAddressRead }
{}
