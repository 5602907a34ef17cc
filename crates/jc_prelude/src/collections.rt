//! The texts of `java.util`.
/// `java.util`.
pub const COLLECTIONS: &str = r#"package java.util;

public class NoSuchElementException extends RuntimeException {
    public NoSuchElementException() { }

    public NoSuchElementException(String message) { super(message); }
}

public interface Iterator<E> {
    boolean hasNext();
    E next();
    void remove();
}

public interface Comparator<T> {
    int compare(T first, T second);
}

public interface Collection<E> extends Iterable<E> {
    boolean add(E element);
    boolean addAll(Collection<? extends E> elements);
    boolean remove(Object element);
    boolean contains(Object element);
    int size();
    boolean isEmpty();
    void clear();
    Iterator<E> iterator();
}

public interface List<E> extends Collection<E> {
    E get(int index);
    E set(int index, E element);
    E remove(int index);
    int indexOf(Object element);
}

public interface Set<E> extends Collection<E> {
}

public interface Map<K, V> {
    V get(Object key);
    V put(K key, V value);
    V remove(Object key);
    boolean containsKey(Object key);
    int size();
    boolean isEmpty();
    void clear();
    Set<K> keySet();
    Set<Map.Entry<K, V>> entrySet();

    public interface Entry<K, V> {
        K getKey();
        V getValue();
    }
}

// The element at an index is found by the bits of the index plus one, from the lowest up to the one before the highest.
public class ArrayList<E> implements List<E> {
    private Node<E> root;
    private int size;

    private static class Node<E> {
        private E element;
        private Node<E> even;
        private Node<E> odd;

        private Node(E element) {
            this.element = element;
        }
    }

    private static class Walk<E> implements Iterator<E> {
        private final ArrayList<E> list;
        private int index;

        private Walk(ArrayList<E> list) {
            this.list = list;
        }

        public boolean hasNext() {
            return index < list.size;
        }

        public E next() {
            if (index >= list.size) {
                throw new NoSuchElementException();
            }
            E element = list.node(index + 1).element;
            index++;
            return element;
        }

        public void remove() {
            throw new UnsupportedOperationException();
        }
    }

    public ArrayList() { }

    private Node<E> node(int path) {
        Node<E> node = root;
        for (int rest = path; rest > 1; rest = rest >> 1) {
            node = (rest & 1) == 0 ? node.even : node.odd;
        }
        return node;
    }

    private void setNode(int path, Node<E> node) {
        if (path == 1) {
            root = node;
            return;
        }
        Node<E> above = root;
        int rest = path;
        while (rest > 3) {
            above = (rest & 1) == 0 ? above.even : above.odd;
            rest = rest >> 1;
        }
        if (rest == 2) {
            above.even = node;
        } else {
            above.odd = node;
        }
    }

    private void check(int index) {
        if (index >= size) {
            throw new IndexOutOfBoundsException("Index: ".concat(String.valueOf(index)).concat(", Size: ").concat(String.valueOf(size)));
        }
        if (index < 0) {
            throw new ArrayIndexOutOfBoundsException(String.valueOf(index));
        }
    }

    public E get(int index) {
        check(index);
        return node(index + 1).element;
    }

    public E set(int index, E element) {
        check(index);
        Node<E> node = node(index + 1);
        E old = node.element;
        node.element = element;
        return old;
    }

    public boolean add(E element) {
        setNode(size + 1, new Node<E>(element));
        size++;
        return true;
    }

    public boolean addAll(Collection<? extends E> elements) {
        int count = elements.size();
        Iterator<? extends E> walk = elements.iterator();
        for (int left = count; left > 0; left--) {
            add(walk.next());
        }
        return count != 0;
    }

    public E remove(int index) {
        check(index);
        Node<E> node = node(index + 1);
        E old = node.element;
        for (int path = index + 2; path <= size; path++) {
            Node<E> next = node(path);
            node.element = next.element;
            node = next;
        }
        setNode(size, null);
        size--;
        return old;
    }

    public boolean remove(Object element) {
        int index = indexOf(element);
        if (index < 0) {
            return false;
        }
        remove(index);
        return true;
    }

    public int indexOf(Object element) {
        for (int index = 0; index < size; index++) {
            E found = node(index + 1).element;
            if (element == null ? found == null : element.equals(found)) {
                return index;
            }
        }
        return -1;
    }

    public boolean contains(Object element) {
        return indexOf(element) >= 0;
    }

    public int size() {
        return size;
    }

    public boolean isEmpty() {
        return size == 0;
    }

    public void clear() {
        root = null;
        size = 0;
    }

    public Iterator<E> iterator() {
        return new Walk<E>(this);
    }
}

// A tree of the keys by the bits of their hash codes, from the lowest on, and a list of its nodes in order of insertion.
public class HashMap<K, V> implements Map<K, V> {
    private Node<K, V> root;
    private Node<K, V> first;
    private Node<K, V> last;
    private int size;

    private static class Node<K, V> {
        private final K key;
        private final int hash;
        private V value;
        private Node<K, V> low;
        private Node<K, V> high;
        private Node<K, V> before;
        private Node<K, V> after;

        private Node(K key, int hash, V value) {
            this.key = key;
            this.hash = hash;
            this.value = value;
        }

        private boolean holds(Object wanted, int wantedHash) {
            return hash == wantedHash && (key == wanted || wanted != null && wanted.equals(key));
        }

        private Node<K, V> below(int wantedHash, int depth) {
            return (wantedHash >>> depth & 1) == 0 ? low : high;
        }
    }

    private static class Pair<K, V> implements Map.Entry<K, V> {
        private final K key;
        private final V value;
        private Pair<K, V> next;

        private Pair(K key, V value) {
            this.key = key;
            this.value = value;
        }

        public K getKey() {
            return key;
        }

        public V getValue() {
            return value;
        }

        public boolean equals(Object other) {
            if (!(other instanceof Map.Entry<?, ?>)) {
                return false;
            }
            Map.Entry<?, ?> entry = (Map.Entry<?, ?>) other;
            return areSame(key, entry.getKey()) && areSame(value, entry.getValue());
        }

        private static boolean areSame(Object first, Object second) {
            return first == null ? second == null : first.equals(second);
        }

        public int hashCode() {
            return hashOf(key) ^ hashOf(value);
        }
    }

    private static class Pairs<K, V> implements Set<Map.Entry<K, V>> {
        private Pair<K, V> first;
        private Pair<K, V> last;
        private int size;

        private void addLast(Pair<K, V> pair) {
            if (last == null) {
                first = pair;
            } else {
                last.next = pair;
            }
            last = pair;
            size++;
        }

        public boolean add(Map.Entry<K, V> entry) {
            throw new UnsupportedOperationException();
        }

        public boolean addAll(Collection<? extends Map.Entry<K, V>> entries) {
            throw new UnsupportedOperationException();
        }

        public boolean remove(Object entry) {
            Pair<K, V> before = null;
            for (Pair<K, V> pair = first; pair != null; pair = pair.next) {
                if (pair.equals(entry)) {
                    if (before == null) {
                        first = pair.next;
                    } else {
                        before.next = pair.next;
                    }
                    if (pair.next == null) {
                        last = before;
                    }
                    size--;
                    return true;
                }
                before = pair;
            }
            return false;
        }

        public boolean contains(Object entry) {
            for (Pair<K, V> pair = first; pair != null; pair = pair.next) {
                if (pair.equals(entry)) {
                    return true;
                }
            }
            return false;
        }

        public int size() {
            return size;
        }

        public boolean isEmpty() {
            return size == 0;
        }

        public void clear() {
            first = null;
            last = null;
            size = 0;
        }

        public Iterator<Map.Entry<K, V>> iterator() {
            return new PairWalk<K, V>(first);
        }
    }

    private static class PairWalk<K, V> implements Iterator<Map.Entry<K, V>> {
        private Pair<K, V> pair;

        private PairWalk(Pair<K, V> pair) {
            this.pair = pair;
        }

        public boolean hasNext() {
            return pair != null;
        }

        public Map.Entry<K, V> next() {
            if (pair == null) {
                throw new NoSuchElementException();
            }
            Pair<K, V> found = pair;
            pair = pair.next;
            return found;
        }

        public void remove() {
            throw new UnsupportedOperationException();
        }
    }

    public HashMap() { }

    private static int hashOf(Object key) {
        return key == null ? 0 : key.hashCode();
    }

    private Node<K, V> find(Object key) {
        int hash = hashOf(key);
        Node<K, V> node = root;
        int depth = 0;
        while (node != null && !node.holds(key, hash)) {
            node = node.below(hash, depth);
            depth++;
        }
        return node;
    }

    public V get(Object key) {
        Node<K, V> node = find(key);
        return node == null ? null : node.value;
    }

    public boolean containsKey(Object key) {
        return find(key) != null;
    }

    public V put(K key, V value) {
        int hash = hashOf(key);
        Node<K, V> above = null;
        Node<K, V> node = root;
        int depth = 0;
        while (node != null) {
            if (node.holds(key, hash)) {
                V old = node.value;
                node.value = value;
                return old;
            }
            above = node;
            node = node.below(hash, depth);
            depth++;
        }
        Node<K, V> made = new Node<K, V>(key, hash, value);
        if (above == null) {
            root = made;
        } else if ((hash >>> depth - 1 & 1) == 0) {
            above.low = made;
        } else {
            above.high = made;
        }
        link(made);
        return null;
    }

    private void link(Node<K, V> node) {
        node.before = last;
        if (last == null) {
            first = node;
        } else {
            last.after = node;
        }
        last = node;
        size++;
    }

    private void unlink(Node<K, V> node) {
        if (node.before == null) {
            first = node.after;
        } else {
            node.before.after = node.after;
        }
        if (node.after == null) {
            last = node.before;
        } else {
            node.after.before = node.before;
        }
        size--;
    }

    public V remove(Object key) {
        int hash = hashOf(key);
        Node<K, V> above = null;
        Node<K, V> node = root;
        int depth = 0;
        while (node != null && !node.holds(key, hash)) {
            above = node;
            node = node.below(hash, depth);
            depth++;
        }
        if (node == null) {
            return null;
        }
        replace(above, node, takeLeaf(node));
        unlink(node);
        return node.value;
    }

    private void replace(Node<K, V> above, Node<K, V> node, Node<K, V> other) {
        if (above == null) {
            root = other;
        } else if (above.low == node) {
            above.low = other;
        } else {
            above.high = other;
        }
    }

    // A leaf below a node may stand at the node's own place. It takes over what is left below it.
    private Node<K, V> takeLeaf(Node<K, V> node) {
        Node<K, V> above = node;
        Node<K, V> leaf = node.low != null ? node.low : node.high;
        if (leaf == null) {
            return null;
        }
        while (leaf.low != null || leaf.high != null) {
            above = leaf;
            leaf = leaf.low != null ? leaf.low : leaf.high;
        }
        replace(above, leaf, null);
        leaf.low = node.low;
        leaf.high = node.high;
        return leaf;
    }

    public int size() {
        return size;
    }

    public boolean isEmpty() {
        return size == 0;
    }

    public void clear() {
        root = null;
        first = null;
        last = null;
        size = 0;
    }

    public Set<K> keySet() {
        HashSet<K> keys = new HashSet<K>();
        for (Node<K, V> node = first; node != null; node = node.after) {
            keys.add(node.key);
        }
        return keys;
    }

    public Set<Map.Entry<K, V>> entrySet() {
        Pairs<K, V> pairs = new Pairs<K, V>();
        for (Node<K, V> node = first; node != null; node = node.after) {
            pairs.addLast(new Pair<K, V>(node.key, node.value));
        }
        return pairs;
    }
}

public class HashSet<E> implements Set<E> {
    private static final Object PRESENT = new Object();

    private final HashMap<E, Object> map;

    private static class Walk<E> implements Iterator<E> {
        private final Iterator<Map.Entry<E, Object>> entries;

        private Walk(Iterator<Map.Entry<E, Object>> entries) {
            this.entries = entries;
        }

        public boolean hasNext() {
            return entries.hasNext();
        }

        public E next() {
            return entries.next().getKey();
        }

        public void remove() {
            throw new UnsupportedOperationException();
        }
    }

    public HashSet() {
        map = new HashMap<E, Object>();
    }

    public boolean add(E element) {
        return map.put(element, PRESENT) == null;
    }

    public boolean addAll(Collection<? extends E> elements) {
        boolean changed = false;
        Iterator<? extends E> walk = elements.iterator();
        while (walk.hasNext()) {
            if (add(walk.next())) {
                changed = true;
            }
        }
        return changed;
    }

    public boolean remove(Object element) {
        return map.remove(element) != null;
    }

    public boolean contains(Object element) {
        return map.containsKey(element);
    }

    public int size() {
        return map.size();
    }

    public boolean isEmpty() {
        return map.isEmpty();
    }

    public void clear() {
        map.clear();
    }

    public Iterator<E> iterator() {
        return new Walk<E>(map.entrySet().iterator());
    }
}
"#;
