// Unit tests of the libraries, over their public calls.
#![tactic(auto)]

#[cfg(test)]
mod acl;
#[cfg(test)]
mod audit;
#[cfg(test)]
mod devices;
#[cfg(test)]
mod events;
#[cfg(test)]
mod folders;
#[cfg(test)]
mod host_busy;
#[cfg(test)]
mod host_devices;
#[cfg(test)]
mod host_files;
#[cfg(test)]
#[cfg(test)]
mod host_journal;
#[cfg(test)]
mod host_output;
#[cfg(test)]
mod host_places;
#[cfg(test)]
mod host_sockets;
#[cfg(test)]
mod host_trust;
#[cfg(test)]
mod index;
#[cfg(test)]
mod intent;
#[cfg(test)]
mod link_faults;
#[cfg(test)]
mod serve;
#[cfg(test)]
mod sessions;
#[cfg(test)]
mod store;
#[cfg(test)]
mod sysfs;
#[cfg(test)]
mod table;
#[cfg(test)]
mod turns;
