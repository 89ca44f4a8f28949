//! Tests of the administrator's port to servers, and of what stands below it, over readers and writers in memory: what
//! no contract says, such as that a call goes well where memory is ample.
#![tactic(auto)]

#[cfg(test)]
mod counting;
#[cfg(test)]
mod dead_masters;
#[cfg(test)]
mod figures;
#[cfg(test)]
mod hearing;
#[cfg(test)]
mod links;
#[cfg(test)]
mod news;
#[cfg(test)]
mod phases;
#[cfg(test)]
mod plans;
#[cfg(test)]
mod replaced;
#[cfg(test)]
mod replicas;
#[cfg(test)]
mod returning;
#[cfg(test)]
mod roles;
mod script;
mod servers;
#[cfg(test)]
mod settling;
#[cfg(test)]
mod stopping;
#[cfg(test)]
mod stranded;
#[cfg(test)]
mod surveys;
#[cfg(test)]
mod telling;
#[cfg(test)]
mod versions;
