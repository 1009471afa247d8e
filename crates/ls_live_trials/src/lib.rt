//! Tests of threads over one machine: what seats are told and answered, on a tape too, and the same if all further
//! memory is refused; threads that run at the same time; and what each step answers where an exchange is lost, and
//! where a thread waits. They are apart from the crates that they test. So the tests are proved without proving those
//! crates again.
#![tactic(auto)]

#[cfg(test)]
mod dids;
#[cfg(test)]
mod following;
#[cfg(test)]
mod gate;
#[cfg(test)]
mod live_memory;
#[cfg(test)]
mod live_seats;
#[cfg(test)]
mod locks;
#[cfg(test)]
mod meeting;
#[cfg(test)]
mod playing;
#[cfg(test)]
mod texts;
#[cfg(test)]
mod turnstile_memory;
#[cfg(test)]
mod turnstile_seats;
