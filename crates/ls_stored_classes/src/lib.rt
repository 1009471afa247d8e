//! The stored classes: five concurrent sets over lists, as class texts. Tests and benchmarks read them.
#![tactic(auto)]

/// One lock for the whole list.
pub const COARSE: &str = "class Node {
  int key;
  Node next;
  Node(int k) { key = k; }
}

class CoarseList {
  Node head;
  Lock lock = new ReentrantLock();
  CoarseList() {
    head = new Node(Integer.MIN_VALUE);
    head.next = new Node(Integer.MAX_VALUE);
  }

  boolean add(int item) {
    lock.lock();
    try {
      Node pred = head, curr = pred.next;
      while (curr.key < item) { pred = curr; curr = curr.next; }
      if (curr.key == item) return false;
      Node node = new Node(item);
      node.next = curr;
      pred.next = node;
      return true;
    } finally { lock.unlock(); }
  }

  boolean remove(int item) {
    lock.lock();
    try {
      Node pred = head, curr = pred.next;
      while (curr.key < item) { pred = curr; curr = curr.next; }
      if (curr.key != item) return false;
      pred.next = curr.next;
      return true;
    } finally { lock.unlock(); }
  }

  boolean contains(int item) {
    lock.lock();
    try {
      Node pred = head, curr = pred.next;
      while (curr.key < item) { pred = curr; curr = curr.next; }
      return curr.key == item;
    } finally { lock.unlock(); }
  }
}
";

/// A lock for each node, taken hand over hand.
pub const FINE: &str = "class Node {
  int key;
  Node next;
  Lock lock = new ReentrantLock();
  Node(int k) { key = k; }
  void lock() { lock.lock(); }
  void unlock() { lock.unlock(); }
}

class FineList {
  Node head;
  FineList() {
    head = new Node(Integer.MIN_VALUE);
    head.next = new Node(Integer.MAX_VALUE);
  }

  boolean add(int item) {
    head.lock();
    Node pred = head;
    try {
      Node curr = pred.next;
      curr.lock();
      try {
        while (curr.key < item) { pred.unlock(); pred = curr; curr = curr.next; curr.lock(); }
        if (curr.key == item) return false;
        Node node = new Node(item);
        node.next = curr;
        pred.next = node;
        return true;
      } finally { curr.unlock(); }
    } finally { pred.unlock(); }
  }

  boolean remove(int item) {
    head.lock();
    Node pred = head;
    try {
      Node curr = pred.next;
      curr.lock();
      try {
        while (curr.key < item) { pred.unlock(); pred = curr; curr = curr.next; curr.lock(); }
        if (curr.key != item) return false;
        pred.next = curr.next;
        return true;
      } finally { curr.unlock(); }
    } finally { pred.unlock(); }
  }

  boolean contains(int item) {
    head.lock();
    Node pred = head;
    try {
      Node curr = pred.next;
      curr.lock();
      try {
        while (curr.key < item) { pred.unlock(); pred = curr; curr = curr.next; curr.lock(); }
        return curr.key == item;
      } finally { curr.unlock(); }
    } finally { pred.unlock(); }
  }
}
";

/// Locks of two nodes. They are taken after a search without locks, and the search is then checked.
pub const OPTIMISTIC: &str = "class Node {
  int key;
  Node next;
  Lock lock = new ReentrantLock();
  Node(int k) { key = k; }
  void lock() { lock.lock(); }
  void unlock() { lock.unlock(); }
}

class OptimisticList {
  Node head;
  OptimisticList() {
    head = new Node(Integer.MIN_VALUE);
    head.next = new Node(Integer.MAX_VALUE);
  }

  boolean validate(Node pred, Node curr) {
    Node node = head;
    while (node.key <= pred.key) {
      if (node == pred) return pred.next == curr;
      node = node.next;
    }
    return false;
  }

  boolean add(int item) {
    while (true) {
      Node pred = head, curr = pred.next;
      while (curr.key < item) { pred = curr; curr = curr.next; }
      pred.lock();
      curr.lock();
      try {
        if (validate(pred, curr)) {
          if (curr.key == item) return false;
          Node node = new Node(item);
          node.next = curr;
          pred.next = node;
          return true;
        }
      } finally { pred.unlock(); curr.unlock(); }
    }
  }

  boolean remove(int item) {
    while (true) {
      Node pred = head, curr = pred.next;
      while (curr.key < item) { pred = curr; curr = curr.next; }
      pred.lock();
      curr.lock();
      try {
        if (validate(pred, curr)) {
          if (curr.key != item) return false;
          pred.next = curr.next;
          return true;
        }
      } finally { pred.unlock(); curr.unlock(); }
    }
  }

  boolean contains(int item) {
    while (true) {
      Node pred = head, curr = pred.next;
      while (curr.key < item) { pred = curr; curr = curr.next; }
      pred.lock();
      curr.lock();
      try {
        if (validate(pred, curr)) {
          return curr.key == item;
        }
      } finally { pred.unlock(); curr.unlock(); }
    }
  }
}
";

/// The same with a mark in each removed node. So a search takes no lock.
pub const LAZY: &str = "class Node {
  int key;
  Node next;
  boolean marked;
  Lock lock = new ReentrantLock();
  Node(int k) { key = k; }
  void lock() { lock.lock(); }
  void unlock() { lock.unlock(); }
}

class LazyList {
  Node head;
  LazyList() {
    head = new Node(Integer.MIN_VALUE);
    head.next = new Node(Integer.MAX_VALUE);
  }

  boolean validate(Node pred, Node curr) { return !pred.marked && !curr.marked && pred.next == curr; }

  boolean add(int item) {
    while (true) {
      Node pred = head, curr = pred.next;
      while (curr.key < item) { pred = curr; curr = curr.next; }
      pred.lock();
      try {
        curr.lock();
        try {
          if (validate(pred, curr)) {
            if (curr.key == item) return false;
            Node node = new Node(item);
            node.next = curr;
            pred.next = node;
            return true;
          }
        } finally { curr.unlock(); }
      } finally { pred.unlock(); }
    }
  }

  boolean remove(int item) {
    while (true) {
      Node pred = head, curr = pred.next;
      while (curr.key < item) { pred = curr; curr = curr.next; }
      pred.lock();
      try {
        curr.lock();
        try {
          if (validate(pred, curr)) {
            if (curr.key != item) return false;
            curr.marked = true;
            pred.next = curr.next;
            return true;
          }
        } finally { curr.unlock(); }
      } finally { pred.unlock(); }
    }
  }

  boolean contains(int item) {
    Node curr = head;
    while (curr.key < item) curr = curr.next;
    return curr.key == item && !curr.marked;
  }
}
";

/// No lock: marked references, compared and exchanged.
pub const LOCK_FREE: &str = "class Node {
  int key;
  AtomicMarkableReference<Node> next;
  Node(int k, Node n) {
    key = k;
    next = new AtomicMarkableReference<Node>(n, false);
  }
}

class Window {
  Node pred;
  Node curr;
  Window(Node p, Node c) {
    pred = p;
    curr = c;
  }
}

class LockFreeList {
  Node head;
  LockFreeList() { head = new Node(Integer.MIN_VALUE, new Node(Integer.MAX_VALUE, null)); }

  Window find(int key) {
    Node pred = null, curr = null, succ = null;
    boolean[] marked = new boolean[1];
    retry: while (true) {
      pred = head;
      curr = pred.next.getReference();
      while (true) {
        succ = curr.next.get(marked);
        while (marked[0]) {
          if (!pred.next.compareAndSet(curr, succ, false, false)) continue retry;
          curr = succ;
          succ = curr.next.get(marked);
        }
        if (curr.key >= key) return new Window(pred, curr);
        pred = curr;
        curr = succ;
      }
    }
  }

  boolean add(int item) {
    while (true) {
      Window w = find(item);
      Node pred = w.pred, curr = w.curr;
      if (curr.key == item) return false;
      Node node = new Node(item, curr);
      if (pred.next.compareAndSet(curr, node, false, false)) return true;
    }
  }

  boolean remove(int item) {
    while (true) {
      Window w = find(item);
      Node pred = w.pred, curr = w.curr;
      if (curr.key != item) return false;
      Node succ = curr.next.getReference();
      if (!curr.next.compareAndSet(succ, succ, false, true)) continue;
      pred.next.compareAndSet(curr, succ, false, false);
      return true;
    }
  }

  boolean contains(int item) {
    Node curr = head;
    while (curr.key < item) curr = curr.next.getReference();
    return curr.key == item && !curr.next.isMarked();
  }
}
";
