//! Tests of links: which text is which line, what streams do, and what each line of an exchange asks for, over a port that
//! notes its calls and a stream that fails; the lives of a node; and the clerk that its links ask.
#![tactic(auto)]

#[cfg(test)]
mod accepting;
#[cfg(test)]
mod actions;
#[cfg(test)]
mod clerk;
#[cfg(test)]
mod counted;
#[cfg(test)]
mod desk;
#[cfg(test)]
mod dialling;
#[cfg(test)]
mod exchange;
#[cfg(test)]
mod faulty;
#[cfg(test)]
mod forms;
#[cfg(test)]
mod junk;
#[cfg(test)]
mod limits;
#[cfg(test)]
mod lives;
#[cfg(test)]
mod metas;
#[cfg(test)]
mod port;
#[cfg(test)]
mod streams;
#[cfg(test)]
mod ticking;
#[cfg(test)]
mod versions;
#[cfg(test)]
mod wire;
#[cfg(test)]
mod worked;
