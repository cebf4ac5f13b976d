//! Applications of one type, each under a prefix of the path.
ghost use Rattle.std.specs.Prelude.{◌≡◌, ◌<◌, ◌++◌, ◌∷◌, [], ◌↔◌, length, IfSome, IfNone, OnOk, OnErr};
ghost use Rattle.std.specs.Result.{IsErrOf};
ghost use Rattle.asgi_apps.specs.Mounts.{EachPrefixOnce, IsBadPrefix, IsMounted, IsNotTaken, IsUnmounted, MountedAt, TakenAt, local_path, prefixes_of};

use crate::mounting::{Mount, is_bad_prefix, is_mounted, local_of, longest};
use crate::not_found::NotFound;
use crate::says::Says;
use crate::task::{AppFault, AppTask, Application};
use asgi_pipes::AppEnd;
use asgi_types::{Chars, Scope};
use futures::task::{Context, Poll};
use std::alloc::{AllocError, Global};
use thiserror::Error;

/// Why an application was not mounted.
#[derive(Clone, Copy, Debug, PartialEq, Eq, Error)]
pub enum MountError {
    /// The prefix is not empty, and either does not begin with a `/` or ends with one.
    #[error("the prefix does not begin with a slash, or ends with one")]
    BadPrefix,
    /// An application is mounted under the same prefix.
    #[error("the prefix is taken")]
    Taken,
    /// Memory was refused.
    #[error(transparent)]
    NoMemory(#[from(alloc)] AllocError),
}

/// Applications of one type, each under a prefix of the path (ASGI HTTP and WebSocket connection
/// scope, `path` and `root_path`). `path` is percent-decoded, so `/a%2fb` is under the prefix `/a`.
/// A lifespan scope goes to the first one. If a scope goes to none, `NotFound` is called.
#[derive(Debug, Drop)]
pub struct Mounts<A> {
    mounts: Vec<Mount<A>>,
    ghost once: { EachPrefixOnce (prefixes_of mounts.items) },
}

/// The task of an application that is mounted.
#[derive(Drop)]
pub enum MountTask<T> {
    /// The task of the application that the scope went to.
    Taken(T),
    /// The task of `NotFound`, if the scope went to none.
    Missing(Says),
}

impl<A> Mounts<A> {
    /// Nothing is mounted. Takes no memory.
    pub fn new(alloc: Global) -> Self
        ensures { result.mounts.items ≡ [] }
    {
        Mounts {
            mounts: Vec::new(alloc),
        }
    }

    /// The number of the application that a path goes to, from 0 on in the order of mounting: the
    /// one under the longest prefix x such that the path, without `root_path` at its start, is x or
    /// goes on after x with a `/`. None if there is no such prefix. Takes no memory.
    pub fn find(&self, path: &str, root_path: &str) -> Option<usize>
        ensures some { IfSome result (λ at. MountedAt (prefixes_of self.now.mounts.items) (local_path path.now root_path.now) at) }
        ensures none { IfNone result (IsUnmounted (prefixes_of self.now.mounts.items) (local_path path.now root_path.now)) }
    {
        let local = local_of(path.as_bytes(), root_path.as_bytes());
        let found = longest(self.mounts.as_slice(), local)?;
        Some(found.at)
    }

    /// The number of the application that the scope goes to.
    fn taken(&self, scope: &Scope) -> Option<usize>
        ensures some { IfSome result (λ at. TakenAt (prefixes_of self.now.mounts.items) scope.now at) }
        ensures within { IfSome result (λ at. at < length self.now.mounts.items) }
        ensures none { IfNone result (IsNotTaken (prefixes_of self.now.mounts.items) scope.now) }
    {
        match scope {
            Scope::Http(scope) => self.find(scope.path.as_str(), scope.root_path.as_str()),
            Scope::WebSocket(scope) => self.find(scope.path.as_str(), scope.root_path.as_str()),
            Scope::Lifespan(_) => {
                if self.mounts.is_empty() {
                    return None;
                }
                Some(0)
            }
        }
    }
}

impl<A: Drop> Mounts<A> {
    /// Mounts an application after those mounted before. The prefix is empty, or begins with a `/`
    /// and does not end with one. On an error nothing changes. The errors, in this order:
    /// BadPrefix, Taken, NoMemory.
    pub fn mount(&mut self, prefix: Chars, app: A) -> Result<(), MountError>
        ensures ok { OnOk result (self.new.mounts.items ≡ self.old.mounts.items ++ record { prefix = prefix; app = app } ∷ []) }
        ensures bad_prefix { IsErrOf result MountError.BadPrefix ↔ IsBadPrefix prefix }
        ensures taken { IsErrOf result MountError.Taken ↔ (¬ (IsBadPrefix prefix) × IsMounted (prefixes_of self.old.mounts.items) prefix) }
        ensures err { OnErr result (self.new.mounts.items ≡ self.old.mounts.items) }
    {
        if is_bad_prefix(prefix.as_str().as_bytes()) {
            return Err(MountError::BadPrefix);
        }
        if is_mounted(self.mounts.as_slice(), prefix.as_str().as_bytes()) {
            return Err(MountError::Taken);
        }
        if let Err(_refused) = self.mounts.push(Mount { prefix, app }) {
            return Err(MountError::NoMemory(AllocError));
        }
        Ok(())
    }
}

impl<A: Application> Application for Mounts<A> {
    ghost use Rattle.asgi_apps.specs.Mounts.{MountsAnswer, MountsRefuse};

    type Task = MountTask<A::Task>;

    ghost answers = { λ mounts. MountsAnswer A.answers mounts.mounts.items };

    ghost refuses = { λ mounts. MountsRefuse A.refuses mounts.mounts.items };

    fn call(&self, alloc: Global, scope: &Scope) -> Result<MountTask<A::Task>, AppFault> {
        let Some(at) = self.taken(scope) else {
            return Ok(MountTask::Missing(NotFound.call(alloc, scope)?));
        };
        let mount = &self.mounts[at];
        Ok(MountTask::Taken(mount.call(alloc, scope)?))
    }

    fn call_owned(&self, alloc: Global, scope: Scope) -> Result<MountTask<A::Task>, AppFault> {
        let Some(at) = self.taken(&scope) else {
            return Ok(MountTask::Missing(NotFound.call_owned(alloc, scope)?));
        };
        let mount = &self.mounts[at];
        Ok(MountTask::Taken(mount.call_owned(alloc, scope)?))
    }
}

impl<T: AppTask> AppTask for MountTask<T> {
    ghost use Rattle.asgi_apps.specs.Mounting.{TaskAnswers, TaskStands, task_keeps};

    ghost stands = { TaskStands T.stands };

    ghost answers = { TaskAnswers T.answers };

    fn poll<E: AppEnd>(&mut self, cx: &mut Context<'_>, end: &mut E) -> Poll<Result<(), AppFault>> {
        match self {
            MountTask::Taken(task) => task.poll(cx, end),
            MountTask::Missing(says) => says.poll(cx, end),
        }
    }

    ghost keeps = { task_keeps T.stands T.answers T.keeps };
}
