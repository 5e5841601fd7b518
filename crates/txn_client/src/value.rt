//! A value of checked length.

ghost use Rattle.std.specs.Prelude.{◌≡◌, ◌↔◌, ◌⊎◌, ◌<◌, ◌≤◌, length, IfOk, IfErr, OnOk, IsErrOf};

use cell_key::Refusal;
use std::alloc::Global;
use std::marker::Model;

/// The bytes of a value: at most 65,536.
#[derive(Drop)]
pub(crate) struct Value {
    bytes: Vec<u8>,
}

impl Model for Value {
    ghost use Rattle.std.specs.Prelude.{List, ℕ, length, ◌≤◌};

    ghost Value = { List ℕ };

    ghost view = { λ value. value.bytes.items };

    ghost invariant = { λ value. length value.bytes.items ≤ 65536 };
}

impl Value {
    /// The most bytes of a value.
    const MOST_BYTES: usize = 65536;

    /// A value of these bytes.
    pub(crate) fn new(alloc: Global, bytes: &[u8]) -> Result<Value, Refusal>
        ensures ok { IfOk result (λ value. value ≡ bytes.now) }
        ensures valid { OnOk result (length bytes.now ≤ 65536) }
        ensures bad { IsErrOf result Refusal.BadValue ↔ (65536 < length bytes.now) }
        ensures refusal { IfErr result (λ refusal. (refusal ≡ Refusal.BadValue)
            ⊎ (refusal ≡ Refusal.NoMemory)) }
    {
        if bytes.len() > Value::MOST_BYTES {
            return Err(Refusal::BadValue);
        }
        let bytes = Vec::from_slice(alloc, bytes)?;
        Ok(Value { bytes })
    }

    /// The number of bytes.
    pub(crate) fn len(&self) -> usize
        ensures len { result ≡ length self.now }
        ensures few { result ≤ 65536 }
    {
        self.bytes.len()
    }

    /// A copy.
    pub(crate) fn copy(&self) -> Result<Value, Refusal>
        ensures copied { IfOk result (λ value. value ≡ self.now) }
        ensures refusal { IfErr result (λ refusal. refusal ≡ Refusal.NoMemory) }
    {
        let bytes = self.bytes.clone()?;
        Ok(Value { bytes })
    }

    /// The bytes.
    pub(crate) fn into_vec(self) -> Vec<u8>
        ensures bytes { result.items ≡ self }
        ensures few { length self ≤ 65536 }
    {
        self.bytes
    }

    /// A copy of the bytes.
    pub(crate) fn to_vec(&self) -> Result<Vec<u8>, Refusal>
        ensures bytes { IfOk result (λ bytes. bytes.items ≡ self.now) }
        ensures few { length self.now ≤ 65536 }
        ensures refusal { IfErr result (λ refusal. refusal ≡ Refusal.NoMemory) }
    {
        let bytes = self.bytes.clone()?;
        Ok(bytes)
    }
}
