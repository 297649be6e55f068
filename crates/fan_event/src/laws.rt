// Laws of keys and their hashes, each the contract of a function that does nothing.
ghost use Rattle.std.specs.Prelude.{◌≡◌, true};
ghost use Rattle.fan_event.specs.declared.event.Event.{Event};
ghost use Rattle.fan_event.specs.Keys.{IsDescriptorKey, key_hash, same_key};

/// Events with the same key have the same hash.
pub fn equal_keys_have_equal_hashes()
    ensures { (a b : Event) → same_key a b ≡ true → key_hash a ≡ key_hash b }
{}

/// Events that are reported by descriptors, of processes or threads below 2^31 and of objects below
/// 2^16, have the same hash only if they have the same key.
pub fn descriptor_keys_share_no_hash()
    ensures { (a b : Event) → IsDescriptorKey a → IsDescriptorKey b → key_hash a ≡ key_hash b
        → same_key a b ≡ true }
{}
