//! The table of names.
use hook_registry::Extra;
use presence_base::Key;
use serde_json::json;
use std::alloc::{AllocError, Global};

#[derive(Drop)]
struct User {
    id: String,
    name: String,
}

/// The names of users, by the keys that they are tracked under.
#[derive(Drop)]
pub(crate) struct UserNames {
    users: Vec<User>,
}

impl UserNames {
    pub(crate) fn new(alloc: Global) -> UserNames {
        UserNames {
            users: Vec::new(alloc),
        }
    }

    pub(crate) fn add(&mut self, alloc: Global, id: &str, name: &str) -> Result<(), AllocError> {
        let id = String::from_str(alloc, id)?;
        let name = String::from_str(alloc, name)?;
        self.users.push(User { id, name })?;
        Ok(())
    }

    /// The member `user` with the name of the key's user, and nothing for a key that is no user's.
    pub(crate) fn extra_of(&self, alloc: Global, key: &Key) -> Result<Extra, AllocError> {
        for user in &self.users {
            if user.id.as_str() == key.as_str() {
                return user_member(alloc, user.name.as_str());
            }
        }
        Ok(Extra::none(alloc))
    }
}

// The member `user` with this name.
fn user_member(alloc: Global, name: &str) -> Result<Extra, AllocError> {
    let user = json!(in alloc; {"n": name})?;
    let mut members = Vec::new(alloc);
    members.push((String::from_str(alloc, "user")?, user))?;
    match Extra::new(alloc, members)? {
        Some(extra) => Ok(extra),
        None => Ok(Extra::none(alloc)),
    }
}
